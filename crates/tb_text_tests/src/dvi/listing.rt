//! Files that are listed, and files that are refused.
use super::{NO_PAGE, THREE_BOXES, listing_of};
use std::alloc::{AllocError, Global};
use std::test::Fail;
use tb_dvi::{list, post_bytes};
use tb_param::defaults;

#[test]
fn lists_rows(rt: HostRuntime) -> Result<(), Fail> {
    let text = list(rt.alloc(), THREE_BOXES).ok().ok_or("not listed")?;
    assert_eq!(rt;
        text.as_slice(),
        b"dvi 1\npage 1\nspecial 0 10 box a\nrule 0 10 10 65536\nspecial 0 20 box b\nrule 0 20 10 65536\nspecial 0 30 box c\nrule 0 30 10 65536\nend pages 1\n".as_slice()
    );
    let none = list(rt.alloc(), NO_PAGE).ok().ok_or("not listed")?;
    assert_eq!(rt; none.as_slice(), b"dvi 1\nend pages 0\n".as_slice());
    Ok(())
}

// The file of no page up to its postamble, with these bytes after it.
fn after_preamble(alloc: Global, rest: &[u8]) -> Result<Vec<u8>, AllocError> {
    let mut file = Vec::from_slice(alloc, &NO_PAGE[..27])?;
    file.extend_from_slice(rest)?;
    Ok(file)
}

// An open page with these commands.
fn on_a_page(alloc: Global, rest: &[u8]) -> Result<Vec<u8>, AllocError> {
    let mut file = after_preamble(alloc, b"\x8b")?;
    file.extend_from_slice(&[0; 44])?;
    file.extend_from_slice(rest)?;
    Ok(file)
}

#[test]
fn refuses_broken_files(rt: HostRuntime) -> Result<(), Fail> {
    let alloc = rt.alloc();
    let starts = [
        (b"".as_slice(), b"byte 0: Truncated".as_slice()),
        (b"\xf7", b"byte 0: Truncated"),
        (b"\x00", b"byte 0: BadPre"),
        (b"\xf7\x03", b"byte 0: BadPre"),
        (&NO_PAGE[..14], b"byte 0: Truncated"),
        (&NO_PAGE[..26], b"byte 0: Truncated"),
        (&NO_PAGE[..27], b"byte 27: Truncated"),
        (&NO_PAGE[..55], b"byte 27: Truncated"),
        (&NO_PAGE[..56], b"byte 56: Truncated"),
        (&NO_PAGE[..61], b"byte 56: Truncated"),
        (&NO_PAGE[..62], b"byte 56: BadPost"),
        (&NO_PAGE[..64], b"byte 56: BadPost"),
        (&NO_PAGE[..67], b"byte 56: BadPost"),
    ];
    for (file, line) in starts {
        assert_eq!(rt; listing_of(alloc, file)?.as_slice(), line);
    }
    let between = [
        (b"\x00".as_slice(), b"byte 27: Font".as_slice()),
        (b"\x8a\xab", b"byte 28: Font"),
        (b"\x84", b"byte 27: BadOp"),
        (b"\x8d", b"byte 27: BadOp"),
        (b"\xf7", b"byte 27: BadOp"),
        (b"\xf9", b"byte 27: BadOp"),
        (b"\xff", b"byte 27: BadOp"),
        (b"\x8b\x00", b"byte 27: Truncated"),
        (b"\xf8\x00", b"byte 27: Truncated"),
    ];
    for (rest, line) in between {
        let file = after_preamble(alloc, rest)?;
        assert_eq!(rt; listing_of(alloc, &file)?.as_slice(), line);
    }
    let on_page = [
        (b"".as_slice(), b"byte 72: Truncated".as_slice()),
        (b"\x8a\x83", b"byte 73: Font"),
        (b"\x8b", b"byte 72: BadOp"),
        (b"\xf8", b"byte 72: BadOp"),
        (b"\xf9", b"byte 72: BadOp"),
        (b"\x8e", b"byte 72: Unbalanced"),
        (b"\x8d\x8c", b"byte 73: Unbalanced"),
        (b"\x8d\x8d\x8e\x8e\x8e", b"byte 76: Unbalanced"),
        (b"\x89\x00\x00\x00\x00\x00\x00\x00", b"byte 72: Truncated"),
        (b"\x8f", b"byte 72: Truncated"),
        (b"\xa0\x00\x00\x00", b"byte 72: Truncated"),
        (b"\xef\x02a", b"byte 72: Truncated"),
        (b"\xf0\x01", b"byte 72: Truncated"),
        (b"\xf2\xff\xff\xff\xff", b"byte 72: Truncated"),
    ];
    for (rest, line) in on_page {
        let file = on_a_page(alloc, rest)?;
        assert_eq!(rt; listing_of(alloc, &file)?.as_slice(), line);
    }
    Ok(())
}

#[test]
fn refuses_wrong_ends(rt: HostRuntime) -> Result<(), Fail> {
    let alloc = rt.alloc();
    let ends = [
        (
            b"\x8a\x00\x00\x00\x1b\x02\xdf\xdf\xdf\xdf\xdf\xdf".as_slice(),
            b"byte 56: BadPost".as_slice(),
        ),
        (
            b"\x8b\x00\x00\x00\x1b\x02\xdf\xdf\xdf\xdf\xdf\xdf",
            b"byte 56: Truncated",
        ),
        (
            b"\x8c\x00\x00\x00\x1b\x02\xdf\xdf\xdf\xdf\xdf\xdf",
            b"byte 56: BadOp",
        ),
        (
            b"\x00\x00\x00\x00\x1b\x02\xdf\xdf\xdf\xdf\xdf\xdf",
            b"byte 56: Font",
        ),
        (
            b"\xf9\x00\x00\x00\x1c\x02\xdf\xdf\xdf\xdf\xdf\xdf",
            b"byte 56: BadPost",
        ),
        (
            b"\xf9\x00\x00\x00\x1b\x03\xdf\xdf\xdf\xdf\xdf\xdf",
            b"byte 56: BadPost",
        ),
        (
            b"\xf9\x00\x00\x00\x1b\x02\xdf\xdf\xdf\xdf\xdf\xde",
            b"byte 56: BadPost",
        ),
        (
            b"\xf9\x00\x00\x00\x1b\x02\xdf\xdf\xdf\xdf\xdf",
            b"byte 56: BadPost",
        ),
        (b"\xf9\x00\x00\x00\x1b\x02\xdf\xdf", b"byte 56: BadPost"),
        (
            b"\xf9\x00\x00\x00\x1b\x02\xdf\xdf\xdf\xdf\xdf\xdf\xdf\xdf\xdf\xdf",
            b"dvi 1\nend pages 0\n",
        ),
    ];
    for (end, line) in ends {
        let mut file = Vec::from_slice(alloc, &NO_PAGE[..56])?;
        file.extend_from_slice(end)?;
        assert_eq!(rt; listing_of(alloc, &file)?.as_slice(), line);
    }
    Ok(())
}

#[test]
fn moves_registers(rt: HostRuntime) -> Result<(), Fail> {
    let alloc = rt.alloc();
    // Each row: commands on a page, and the place of a special after them.
    let rows = [
        (b"\x8f\x05\xef\x00".as_slice(), b"special 5 0 ".as_slice()),
        (b"\x90\xff\xfe\xef\x00", b"special -2 0 "),
        (b"\x91\x01\x00\x00\xef\x00", b"special 65536 0 "),
        (b"\x92\x80\x00\x00\x00\xef\x00", b"special -2147483648 0 "),
        (
            b"\x92\x7f\xff\xff\xff\x92\x7f\xff\xff\xff\xef\x00",
            b"special 4294967294 0 ",
        ),
        (b"\x94\x03\x93\x99\x04\x98\xef\x00", b"special 14 0 "),
        (b"\xa2\x03\xa1\xa7\x04\xa6\xef\x00", b"special 0 14 "),
        (b"\x9d\x80\xef\x00", b"special 0 -128 "),
        (
            b"\x84\x00\x00\x00\x01\x00\x00\x00\x02\xef\x00",
            b"special 2 0 ",
        ),
        (
            b"\x89\x00\x00\x00\x01\x00\x00\x00\x02\xef\x00",
            b"special 0 0 ",
        ),
        (b"\x8d\x94\x03\x8e\x93\xef\x00", b"special 0 0 "),
        (
            b"\x94\x03\x8d\x94\x05\x8d\x8e\x8e\x93\xef\x00",
            b"special 6 0 ",
        ),
        (b"\xf0\x00\x03a\\\x80", b"special 0 0 a\\5c\\80"),
        (b"\xf1\x00\x00\x01~", b"special 0 0 ~"),
        (b"\xf2\x00\x00\x00\x01\x7f", b"special 0 0 \\7f"),
    ];
    for (commands, line) in rows {
        let mut file = on_a_page(alloc, commands)?;
        file.extend_from_slice(b"\x8c")?;
        let place = file.len();
        if place > 1000 {
            return Err("a long file".into());
        }
        let mut params = defaults();
        params.textheight = 30;
        let post = post_bytes(alloc, &params, 1, true, 27, place as u64)?;
        file.extend_from_slice(&post)?;
        let text = listing_of(alloc, &file)?;
        let mut wanted = Vec::from_slice(alloc, line)?;
        wanted.extend_from_slice(b"\nend pages 1\n")?;
        assert!(rt; text.ends_with(&wanted));
    }
    Ok(())
}

// Adds a text to a checksum.
fn checksum(sum: u64, text: &[u8]) -> u64 {
    let mut sum = sum;
    for byte in text {
        sum = (sum % 4294967291 * 257 + u64::from(*byte)) % 4294967291;
    }
    sum
}

#[test]
fn lists_each_changed_byte(rt: HostRuntime) -> Result<(), Fail> {
    let alloc = rt.alloc();
    // The lister of bench/dvi_changes.py, which shares no code with this one, gives this sum for the same changes.
    let mut file = Vec::from_slice(alloc, THREE_BOXES)?;
    let mut sum = 0;
    for place in 0..file.len() {
        let was = file[place];
        for byte in [0, 2, 140, 141, 142, 160, 223, 239, 247, 248, 249, 255] {
            file[place] = byte;
            sum = checksum(sum, &listing_of(alloc, &file)?);
        }
        file[place] = was;
    }
    assert_eq!(rt; sum, 3863261345);
    Ok(())
}
