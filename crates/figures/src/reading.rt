//! Reading numbers of two bytes, the high byte first. Bytes that are not there count as 0.
ghost use Rattle.std.specs.Prelude.{◌≡◌, slice_index};
ghost use Rattle.figures.specs.Bytes.{word, signed_word};

fn byte_at(bytes: &[u8], place: usize) -> u8
    ensures { result ≡ slice_index bytes.now place }
{
    bytes.get(place).copied().unwrap_or(0)
}

// The number in the two bytes from a place on.
pub fn word_at(bytes: &[u8], place: usize) -> u16
    ensures { result ≡ word bytes.now place }
{
    // no slice reaches the last place of all, so both bytes are 0 there
    let next = place.saturating_add(1);
    u16::from_be_bytes([byte_at(bytes, place), byte_at(bytes, next)])
}

pub(crate) fn signed_word_at(bytes: &[u8], place: usize) -> i16
    ensures { result ≡ signed_word bytes.now place }
{
    word_at(bytes, place).cast_signed()
}
