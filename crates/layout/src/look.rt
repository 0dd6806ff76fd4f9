// A text field in one look: its bytes and those behind it side by side, as two masks.
ghost use Rattle.std.specs.Prelude.{◌≡◌, ◌+◌, ◌≤◌, length};
ghost use Rattle.texts.specs.Bytes.{part};
ghost use Rattle.layout.specs.Looks.{Masked, end_told, text_told};

use std::simd::prelude::*;

/// Two masks of bytes, the first byte's bit the lowest.
#[derive(Clone, Copy)]
pub(crate) struct Masks {
    /// The bytes that are not printable: no text goes on there.
    pub(crate) stops: u64,
    /// The bytes that are not null.
    pub(crate) given: u64,
}

macro_rules! masks_of {
    ($lanes:ident, $bytes:expr) => {{
        let bytes = $lanes::from_slice($bytes);
        let stops = bytes.simd_lt($lanes::splat(b' ')) | $lanes::splat(b'~').simd_lt(bytes);
        let given = bytes.simd_ne($lanes::splat(0));
        Masks {
            stops: stops.to_bitmask(),
            given: given.to_bitmask(),
        }
    }};
}

impl Masks {
    /// Of the 16 bytes from a place on.
    #[inline(always)]
    pub(crate) fn of_16(src: &[u8], at: usize) -> Masks
        requires { at + 16 ≤ length src.now }
        ensures { Masked (part at 16 src.now) result }
    {
        masks_of!(u8x16, &src[at..])
    }

    /// Of the 32 bytes from a place on.
    #[inline(always)]
    pub(crate) fn of_32(src: &[u8], at: usize) -> Masks
        requires { at + 32 ≤ length src.now }
        ensures { Masked (part at 32 src.now) result }
    {
        masks_of!(u8x32, &src[at..])
    }

    /// Where the text of the first `width` bytes ends.
    #[inline(always)]
    pub(crate) fn end(self, width: usize) -> usize
        requires { width ≤ 32 }
        ensures value { result ≡ end_told self.stops width }
        ensures bound { result ≤ 63 }
    {
        let stops = self.stops % (1 << width);
        if stops == 0 {
            width
        } else {
            stops.trailing_zeros() as usize
        }
    }

    /// Whether those bytes are text: behind its end all are null.
    #[inline(always)]
    pub(crate) fn is_text(self, width: usize) -> bool
        requires { width ≤ 32 }
        ensures { result ≡ text_told self width }
    {
        self.given % (1 << width) >> self.end(width) == 0
    }
}
