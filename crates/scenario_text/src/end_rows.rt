//! The two ends of a wire.

use crate::offer_row::OfferRow;

/// What the two ends of a wire offer.
#[derive(Clone, Copy)]
pub struct EndRows {
    pub near: OfferRow,
    pub far: OfferRow,
}
