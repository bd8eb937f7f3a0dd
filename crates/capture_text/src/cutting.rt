//! Bytes cut at the first that has a value.

ghost use Rattle.std.specs.Prelude.{◌≡◌, ◌<◌, ◌==◌, ◌∷◌, length, position, Some, IfSome, IsTrue};
ghost use Rattle.std.specs.List.{slice_split};
ghost use Rattle.capture_text.specs.Lines.{parts_left};

/// What stands before the first byte of this value, and what stands behind it if there is one.
///
/// Of bytes without it all stand before, and nothing behind.
/// This project's own.
#[tactic(auto, using(crate::proofs::LineLemmas::split_at_place, crate::proofs::LineLemmas::split_whole))]
pub fn cut_at(bytes: &[u8], at: u8) -> (&[u8], Option<&[u8]>)
    ensures parts { slice_split (λ byte. byte == at) bytes.now ≡ result.0.now ∷ parts_left at result.1 }
    ensures shorter { IfSome result.1 (λ rest. length rest.now < length bytes.now) }
{
    match first_of(bytes, at) {
        Some(place) => (&bytes[..place], Some(bytes.split_at(place + 1).1)),
        None => (bytes, None),
    }
}

/// The same, where the first byte of this value is likely at a place.
#[tactic(auto, using(crate::proofs::LineLemmas::split_at_place))]
pub(crate) fn cut_near(bytes: &[u8], at: u8, likely: usize) -> (&[u8], Option<&[u8]>)
    ensures parts { slice_split (λ byte. byte == at) bytes.now ≡ result.0.now ∷ parts_left at result.1 }
    ensures shorter { IfSome result.1 (λ rest. length rest.now < length bytes.now) }
{
    if is_first(bytes, at, likely) {
        return (&bytes[..likely], Some(bytes.split_at(likely + 1).1));
    }
    cut_at(bytes, at)
}

fn first_of(bytes: &[u8], at: u8) -> Option<usize>
    ensures place { result ≡ position (λ byte. byte == at) bytes.now }
    ensures within { IfSome result (λ place. place < length bytes.now) }
{
    bytes.iter().position(|byte| *byte == at)
}

/// Whether the first byte of this value stands at a place.
///
/// `contains` looks at many bytes at once, which `position` doesn't.
#[tactic(auto, using(crate::proofs::LineLemmas::first_place))]
fn is_first(bytes: &[u8], at: u8, place: usize) -> bool
    ensures first { IsTrue result → position (λ byte. byte == at) bytes.now ≡ Some place }
    ensures within { IsTrue result → place < length bytes.now }
{
    place < bytes.len() && bytes[place] == at && !bytes[..place].contains(&at)
}
