//! The parts of a frame: where each begins, octets counted from 0, and the octets of those that the
//! standard fixes.

ghost use Rattle.std.specs.Prelude.{◌≡◌, ◌+◌, ◌≤◌, ◌++◌, length, take, slice_range};
ghost use Rattle.std.specs.Str.{bytes_eq};

/// The octets of a frame that is written, and the fewest of one that is read.
pub const FRAME: usize = 60;
/// The most octets of a frame that is read.
pub const GREATEST_FRAME: usize = 1514;

/// Destination Address: the multicast address of the slow protocols.
pub const DESTINATION: Part<6> = Part {
    first: 0,
    octets: [0x01, 0x80, 0xc2, 0x00, 0x00, 0x02],
};
/// Source Address, six octets.
pub const SOURCE_AT: usize = 6;
/// Slow Protocol Ethertype.
pub const ETHERTYPE: Part<2> = Part {
    first: 12,
    octets: [0x88, 0x09],
};
/// Slow Protocol Subtype: the organization specific slow protocol.
pub const SUBTYPE: Part<1> = Part {
    first: 14,
    octets: [0x0a],
};
/// ITU-OUI.
pub const OUI: Part<3> = Part {
    first: 15,
    octets: [0x00, 0x19, 0xa7],
};
/// ITU Subtype: the ESMC.
pub const ITU_SUBTYPE: Part<2> = Part {
    first: 18,
    octets: [0x00, 0x01],
};
/// Version in bits 7 to 4, Event flag in bit 3, and reserved bits.
pub const VERSION_AND_FLAG_AT: usize = 20;
/// Version.
pub const VERSION: u8 = 1;
/// Event flag.
pub const EVENT_FLAG: u8 = 0b0000_1000;
/// Reserved, as it is written.
pub const RESERVED: Part<3> = Part {
    first: 21,
    octets: [0; 3],
};
/// Type and Length of the QL TLV.
pub const QL_TLV: Part<3> = Part {
    first: 24,
    octets: [0x01, 0x00, 0x04],
};
/// SSM code in bits 3 to 0, and unused bits.
pub const CODE_AT: usize = 27;
/// SSM code.
pub const CODE_BITS: u8 = 0b0000_1111;
/// Padding, as it is written where no extended QL TLV stands.
pub const PADDING: Part<32> = Part {
    first: 28,
    octets: [0; 32],
};
/// Type and Length of the extended QL TLV.
pub const EXTENDED_TLV: Part<3> = Part {
    first: 28,
    octets: [0x02, 0x00, 0x14],
};
/// The enhanced code.
pub const ENHANCED_CODE_AT: usize = 31;
/// The identity of the clock, eight octets.
pub const CLOCK_AT: usize = 32;
/// Flags.
pub const FLAGS_AT: usize = 40;
/// The number of cascaded enhanced EECs.
pub const EEECS_AT: usize = 41;
/// The number of cascaded EECs.
pub const EECS_AT: usize = 42;
/// Padding, as it is written behind the extended QL TLV.
pub const SHORT_PADDING: Part<17> = Part {
    first: 43,
    octets: [0; 17],
};

/// Octets that stand at one place in each frame.
pub struct Part<const N: usize> {
    /// The number of the first of them.
    pub first: usize,
    /// The octets from there on.
    pub octets: [u8; N],
}

impl<const N: usize> Part<N> {
    /// Whether a frame has this part.
    pub(crate) fn is_in(&self, frame: &[u8]) -> bool
        requires { self.now.first + N ≤ length frame.now }
        ensures { let found = slice_range frame.now self.now.first (self.now.first + N)
            in result ≡ bytes_eq found self.now.octets }
    {
        &frame[self.first..self.first + N] == self.octets.as_slice()
    }

    /// Writes this part behind what was written so far.
    pub(crate) fn put(&self, out: &mut [u8; FRAME])
        requires { self.now.first + N ≤ FRAME }
        ensures { let next = self.now.first + N
            in take next out.new ≡ take self.now.first out.old ++ self.now.octets }
    {
        put_at(out, self.first, &self.octets);
    }
}

/// Writes these octets from the first one on, behind what was written so far.
pub(crate) fn put_at<const N: usize>(out: &mut [u8; FRAME], first: usize, octets: &[u8; N])
    requires { first + N ≤ FRAME }
    ensures { take (first + N) out.new ≡ take first out.old ++ octets.now }
{
    out[first..first + N].copy_from_slice(octets);
}
