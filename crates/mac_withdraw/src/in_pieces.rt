//! The pieces in which addresses are told.
ghost use Rattle.std.specs.Prelude.{◌≡◌};
ghost use Rattle.mac_withdraw.specs.Pieces.{piece_count};

/// The most addresses of one message.
const MOST_IN_PIECE: usize = 30;

/// In how many pieces of at most 30 addresses so many addresses are told: one where there are none, since an empty list says that
/// all are meant.
pub fn pieces(count: usize) -> usize
    ensures { result ≡ piece_count count }
{
    if count == 0 {
        return 1;
    }
    count.div_ceil(MOST_IN_PIECE)
}
