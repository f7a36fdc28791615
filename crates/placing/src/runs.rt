//! Pieces one behind the other from an address on.
ghost use Rattle.std.specs.Prelude.{◌≡◌, ◌+◌, ◌<◌, ◌≤◌, ◌^◌, ◌++◌, All, IfErr, IfOk, IfSome, OnOk, SomeIff, max};
ghost use Rattle.elf_model.specs.Own.OwnLayout as own;
ghost use Rattle.elf_model.specs.Own.OwnLayout.{place_at, placed_end, placed_from};
ghost use Rattle.elf_model.specs.Link.Placement.{round_up};
ghost use Rattle.placing.specs.Limits.{AreInLimit, HasSmallAlignment, IsInLimit, RunFails};
ghost use Rattle.placing.specs.Views.{borrowed_views, piece_view};
ghost use Rattle.placing.specs.PlaceViews.{place_view, place_views};

use crate::faults::LayoutFault;
use crate::piece::Piece;

/// A piece at its address.
#[derive(Clone, Copy, Debug)]
pub struct Place<'a> {
    pub at: u64,
    pub piece: Piece<'a>,
}

/// The end of the addresses that pieces may take up.
pub const ADDRESS_LIMIT: u64 = 1 << 46;

/// The least multiple of `align` not below `address`.
pub fn round_up(align: u64, address: u64) -> u64
    requires some { 0 < align }
    requires fits { address + align < 2 ^ 64 }
    ensures multiple { result ≡ round_up align address }
    ensures above { address ≤ result }
    ensures below { result < address + align }
{
    (address + (align - 1)) / align * align
}

/// The size of a page of the profile, in bytes.
pub const PAGE: u64 = 4096;

/// The least multiple of the size of a page not below an address.
pub fn page_up(address: u64) -> u64
    requires { address ≤ 2 ^ 46 }
    ensures page { result ≡ own.page_up address }
    ensures above { address ≤ result }
    ensures low { result ≤ 2 ^ 46 }
{
    round_up(PAGE, address)
}

/// Where a piece stands that comes next at an address. None where it would end past the limit.
fn address_of(address: u64, piece: &Piece<'_>) -> Option<u64>
    requires low { address ≤ 2 ^ 47 }
    requires aligned { HasSmallAlignment (piece_view piece.now) }
    ensures place { SomeIff result (IsInLimit (place_at address (piece_view piece.now)))
        (place_at address (piece_view piece.now)).at }
    ensures above { IfSome result (λ at. address ≤ at) }
{
    let at = round_up(piece.header.sh_addralign.max(1), address);
    if at > ADDRESS_LIMIT || piece.header.sh_size > ADDRESS_LIMIT - at {
        return None;
    }
    Some(at)
}

/// Places pieces one behind the other from an address on, behind the places that are there, and gives the
/// address behind the last one.
pub fn place_run<'a>(
    out: &mut Vec<Place<'a>>,
    pieces: &[&Piece<'a>],
    from: u64,
) -> Result<u64, LayoutFault>
    requires low { from ≤ 2 ^ 47 }
    requires aligned { All HasSmallAlignment (borrowed_views pieces.now) }
    ensures placed { OnOk result (place_views out.new.items
        ≡ place_views out.old.items ++ placed_from from (borrowed_views pieces.now)) }
    ensures end { IfOk result (λ end. end ≡ own.end_of from (borrowed_views pieces.now)) }
    ensures above { IfOk result (λ end. from ≤ end) }
    ensures low { IfOk result (λ end. end ≤ max from (2 ^ 46)) }
    ensures limit { OnOk result (AreInLimit (placed_from from (borrowed_views pieces.now))) }
    ensures fault { IfErr result (RunFails (placed_from from (borrowed_views pieces.now))) }
{
    let mut next = from;
    for piece in pieces {
        let Some(at) = address_of(next, piece) else {
            return Err(LayoutFault::TooLarge);
        };
        out.push(Place { at, piece: **piece })?;
        next = at + piece.header.sh_size;
    }
    Ok(next)
}
