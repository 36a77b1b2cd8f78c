//! Byte strings of the sizes that keys, and values of one size, have.

ghost use Rattle.std.specs.Prelude.{◌≡◌, MatchOption, false, length, true};
ghost use Rattle.light_questions.specs.SizedStrings.{bytes_of, is_size, size_in_bytes};

use commonware_storage::codec::FixedBytes;

/// A byte string of one of these sizes.
#[derive(Clone, Copy, Drop)]
pub enum SizedBytes {
    /// Of 4 bytes.
    Of4(FixedBytes<4>),

    /// Of 8 bytes.
    Of8(FixedBytes<8>),

    /// Of 20 bytes.
    Of20(FixedBytes<20>),

    /// Of 32 bytes.
    Of32(FixedBytes<32>),
}

/// Returns the string with these bytes; none if they have no such size. Allocates nothing.
pub fn of_bytes(bytes: &[u8]) -> Option<SizedBytes>
    ensures { MatchOption result (is_size (length bytes.now) ≡ false)
        (λ sized. (is_size (length bytes.now) ≡ true) × (bytes_of sized ≡ bytes.now)) }
{
    if let Ok(bytes) = <[u8; 4]>::try_from(bytes) {
        Some(SizedBytes::Of4(FixedBytes { bytes }))
    } else if let Ok(bytes) = <[u8; 8]>::try_from(bytes) {
        Some(SizedBytes::Of8(FixedBytes { bytes }))
    } else if let Ok(bytes) = <[u8; 20]>::try_from(bytes) {
        Some(SizedBytes::Of20(FixedBytes { bytes }))
    } else if let Ok(bytes) = <[u8; 32]>::try_from(bytes) {
        Some(SizedBytes::Of32(FixedBytes { bytes }))
    } else {
        None
    }
}

/// A size that values of one size have.
#[derive(Clone, Copy, Drop)]
pub enum Size {
    /// 4 bytes.
    Four,

    /// 8 bytes.
    Eight,

    /// 20 bytes.
    Twenty,

    /// 32 bytes.
    ThirtyTwo,
}

/// Returns the size of `bytes` bytes; none if that is no such size.
pub fn size_of(bytes: usize) -> Option<Size>
    ensures { MatchOption result (is_size bytes ≡ false)
        (λ size. (is_size bytes ≡ true) × (size_in_bytes size ≡ bytes)) }
{
    match bytes {
        4 => Some(Size::Four),
        8 => Some(Size::Eight),
        20 => Some(Size::Twenty),
        32 => Some(Size::ThirtyTwo),
        _ => None,
    }
}
