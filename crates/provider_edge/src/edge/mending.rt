//! What each end tells follows what it should tell by now, and the spokes are chosen.

mod marks;
mod mend;
mod mend_end;
mod spokes;
mod wish;
