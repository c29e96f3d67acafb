// The settings of an image file, at the edges of their rules.
use crate::samples::Sample::Bare;
use crate::samples::{put_at, refused_part};
use std::test::Fail;

// Where each number stands in the file.
const DESCR: usize = 12;

const AOFF: usize = 20;

const FOFF: usize = 28;

const FLEN: usize = 36;

const VOFF: usize = 44;

const VLEN: usize = 52;

const FNC: usize = 60;

const MARK: usize = 68;

const PTR: usize = 76;

const STTL: usize = 84;

const TTL: usize = 92;

const STSIZE: usize = 100;

const DYNSIZ: usize = 108;

const OBSIZ: usize = 116;

/// Settings other than the standard ones, and whether they are legal.
static SETTINGS: [(&[(usize, u64)], bool); 67] = [
    (&[(DESCR, 16)], true),
    (&[(DESCR, 8)], false),
    (&[(DESCR, 20)], false),
    (&[(DESCR, 24)], true),
    (&[(DESCR, 64)], true),
    (&[(DESCR, 72)], false),
    (&[(AOFF, 4)], false),
    (&[(AOFF, 8)], false),
    (&[(AOFF, 16)], false),
    (&[(DESCR, 24), (AOFF, 16)], true),
    (&[(DESCR, 24), (AOFF, 24)], false),
    (&[(FOFF, 10)], true),
    (&[(FOFF, 9)], false),
    (&[(FOFF, 12)], false),
    (&[(FOFF, 6)], false),
    (&[(FOFF, 14), (VOFF, 8)], true),
    (&[(FOFF, 16)], false),
    (&[(FLEN, 1)], true),
    (&[(FLEN, 4)], true),
    (&[(FLEN, 0)], false),
    (&[(FLEN, 3)], false),
    (&[(FLEN, 8)], false),
    (&[(VOFF, 8), (FOFF, 12)], true),
    (&[(VOFF, 8)], false),
    (&[(VOFF, 10)], false),
    (&[(VOFF, 16)], false),
    (&[(VLEN, 2)], true),
    (&[(VLEN, 2), (VOFF, 14)], true),
    (&[(VLEN, 1)], false),
    (&[(VLEN, 3)], false),
    (&[(VLEN, 6)], false),
    (&[(VLEN, 8)], false),
    (&[(DESCR, 24), (VLEN, 8), (VOFF, 16)], true),
    (&[(VLEN, 16)], false),
    (&[(FNC, 32_768)], true),
    (&[(FNC, 65_536)], false),
    (&[(FNC, 65_536), (FLEN, 4)], true),
    (&[(FNC, 0)], false),
    (&[(FNC, 3)], false),
    (&[(FNC, 2)], false),
    (&[(MARK, 32_768)], true),
    (&[(MARK, 65_536)], false),
    (&[(MARK, 4)], false),
    (&[(PTR, 32_768)], true),
    (&[(PTR, 65_536)], false),
    (&[(PTR, 8)], false),
    (&[(STTL, 32_768)], true),
    (&[(STTL, 65_536)], false),
    (&[(STTL, 16)], false),
    (&[(TTL, 32_768)], true),
    (&[(TTL, 65_536)], false),
    (&[(TTL, 1)], false),
    (&[(TTL, 32), (FLEN, 1)], true),
    (&[(TTL, 256), (FLEN, 1)], false),
    (&[(STSIZE, 16)], true),
    (&[(STSIZE, 15)], false),
    (&[(STSIZE, 65_536)], true),
    (&[(STSIZE, 65_537)], false),
    (&[(DYNSIZ, 0)], true),
    (&[(DYNSIZ, 900_000)], true),
    (&[(DYNSIZ, 900_001)], false),
    (&[(DYNSIZ, 0xffff_ffff_ffff_ffff)], false),
    (&[(OBSIZ, 1)], true),
    (&[(OBSIZ, 0)], false),
    (&[(OBSIZ, 4_096)], true),
    (&[(OBSIZ, 4_097)], false),
    (&[(OBSIZ, 0x1_0000_0001)], false),
];

#[test]
fn settings_are_legal_as_in_a_parameter_file(rt: HostRuntime) -> Result<(), Fail> {
    for &(changes, legal) in &SETTINGS {
        let mut bytes = Bare.bytes(rt.alloc())?;
        for &(place, value) in changes {
            put_at(&mut bytes, place, &value.to_le_bytes());
        }
        let part = refused_part(rt.alloc(), &bytes)?;
        assert_eq!(rt; part, if legal { None } else { Some(3) }, "{changes:?}");
    }
    Ok(())
}

/// Bytes of the date, from 124 to 131, and whether the date is legal with them.
static DATES: [(usize, u8, bool); 6] = [
    (124, 32, true),
    (124, 31, false),
    (131, 126, true),
    (131, 127, false),
    (127, 0, false),
    (127, 255, false),
];

#[test]
fn a_date_is_eight_printed_bytes(rt: HostRuntime) -> Result<(), Fail> {
    for (place, byte, legal) in DATES {
        let mut bytes = Bare.bytes(rt.alloc())?;
        put_at(&mut bytes, place, &[byte]);
        let part = refused_part(rt.alloc(), &bytes)?;
        assert_eq!(rt; part, if legal { None } else { Some(3) });
    }
    Ok(())
}
