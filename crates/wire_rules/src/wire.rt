//! Hashed strings, numbers and lists of wire_core.

use sha2::{Digest, Sha256};
use std::test::Fail;
use wire_core::{Cursor, List, Register, Short, Tag, put_bytes, put_u8, put_u16, put_u32, put_u64};

// Tags, pieces and hashes that another program computed. The last two rows are a member's pad
// seed and the seed of a layer.
const HASHES: [(Tag, &[&[u8]], &[u8]); 6] = [
    (
        Tag::Message,
        &[b"\x3d", b"\xd2"],
        b"\x13\x19\xe2\x58\x9c\xfb\xb2\xd4\x19\x8b\x17\xff\x9e\x1b\xfb\xfb\xc3\xa5\x63\xaf\xb3\xed\xa0\xcd\x31\xa8\xc1\x92\xe7\xd7\x52\xf8",
    ),
    (
        Tag::PadHash,
        &[b"", b""],
        b"\x66\x86\x1a\xc4\xb9\x6b\xc7\x18\xf9\x52\x2e\x13\xf2\xb1\x64\x8d\x7f\x4f\x8d\xa7\xca\xff\x20\x82\x5f\x40\xef\x3d\xb1\x04\x4e\x71",
    ),
    (
        Tag::MakeMessage,
        &[
            b"\xdc\x26\x28\x74\xc3\xa1\xb7\xdf\x2c\xde\x69\x30\xab\x68\xaf\x04\x2e\x93\x82\x97\x02\xfa\x8b\x7c\x7a\xae\x1c\x12\x61\x79\x20\x09",
            b"",
        ],
        b"\xb2\xf2\xe7\xa7\x6d\xc9\xbd\xbd\xf3\x83\x37\x09\x79\xbe\xdc\x82\xff\xf1\x6a\x14\xb1\x64\x66\xa3\x7e\x47\xc6\xd0\x2d\x73\xfd\xf8",
    ),
    (
        Tag::Derive,
        &[b"\x58"],
        b"\x5f\xd9\x24\xe6\x79\xed\x3f\xbe\x71\x79\x58\xdb\x30\xa9\x55\x97\xdc\x85\xc3\x46\xd3\xfa\x68\x10\xda\x83\x7c\x73\xcc\x24\xf0\xe4",
    ),
    (
        Tag::Derive,
        &[
            b"\x3d\x2a\x0c\x5c\xd3\xcc\xf3\xed\x1f\xff\x13\xc8\x04\x40\x2f\xb2\x1f\x00\x8b\x0c\x66\x2b\x4d\x36\x13\xd8\x38\xe9\x99\x7a\x01\xd3",
            b"\x87\x17\xef\x6d\x0e\x95\x06\x44",
            b"\x0c",
            b"\x01",
        ],
        b"\x02\xab\x63\xcf\xef\xa9\xdf\xb2\xa1\x97\x9d\xbb\xf5\xb0\x59\x92\xf8\x72\x84\x22\x6e\x50\x6d\x43\xbc\xf1\xf9\x4b\x6d\x77\x54\x7f",
    ),
    (
        Tag::LayerSeed,
        &[
            b"\x6b\x86\x0d\x8d\xc4\x23\x5a\xc7\xec\x8f\xa6\x42\xf0\x24\xb2\x88\x5c\xea\x3b\x78\x47\x53\x79\x34\x32\xd0\xc0\x39\xfc\x75\x12\x31",
            b"\x89\xeb\x30\x61\xb4\x4a\x72\x4c",
            b"\x02",
            b"\x01",
            b"\x02",
            b"\x08",
        ],
        b"\x79\x39\x0f\x53\xb0\xa6\x59\x99\xa0\x5e\xbb\xaf\x7c\xed\x1a\xc8\x6f\x28\x5c\x64\xeb\x0d\x82\x02\x13\x47\x2a\xdd\x60\x19\xa8\x54",
    ),
];

fn hash_of(tag: Tag, pieces: &[&[u8]]) -> [u8; 32] {
    let mut register = Register::new(tag);
    for piece in pieces {
        if piece.len() < 1000 {
            register.piece(piece);
        }
    }
    register.end()
}

#[test]
fn a_tag_and_its_pieces_are_hashed_as_one_string(rt: HostRuntime) {
    let string = [0x44, 0x53, 0x4e, 0x54, 0x31, 9, 0, 0, 0, 1, 0x61];
    assert_eq!(rt;
        hash_of(Tag::Message, &[b"a"]),
        Sha256::digest(string.as_slice())
    );
    for (tag, pieces, hash) in HASHES {
        assert_eq!(rt; hash_of(tag, pieces).as_slice(), hash, "at {tag:?}");
    }
}

#[test]
fn a_refused_read_leaves_the_cursor(rt: HostRuntime) {
    let mut cursor = Cursor::new(&[0, 1, 2]);
    let short = Short {
        at: 0,
        need: 4,
        have: 3,
    };
    assert_eq!(rt; cursor.u32(), Err(short));
    assert_eq!(rt; cursor.u16(), Ok(1));
    assert_eq!(rt; cursor.place(), 2);
    assert_eq!(rt; cursor.left(), 1);
}

#[test]
fn what_is_put_is_read(rt: HostRuntime) -> Result<(), Fail> {
    let mut out = Vec::new(rt.alloc());
    put_u32(&mut out, 258)?;
    assert_eq!(rt; out.as_slice(), [0, 0, 1, 2].as_slice());
    put_u8(&mut out, 3)?;
    put_u16(&mut out, 4)?;
    put_u64(&mut out, 5)?;
    put_bytes(&mut out, b"six")?;
    assert_eq!(rt; out.len(), 18);
    let mut cursor = Cursor::new(&out);
    assert_eq!(rt; cursor.u32(), Ok(258));
    assert_eq!(rt; cursor.u8(), Ok(3));
    assert_eq!(rt; cursor.u16(), Ok(4));
    assert_eq!(rt; cursor.u64(), Ok(5));
    let rest = cursor.bytes(3).ok().ok_or("three bytes are left")?;
    assert_eq!(rt; rest, b"six".as_slice());
    assert_eq!(rt; cursor.left(), 0);
    Ok(())
}

#[derive(Debug, Drop)]
struct Shelf {
    rows: List<List<u8>>,
}

#[derive(Debug, Drop)]
enum Held {
    Nothing,
    Words(List<u32>),
}

#[test]
fn a_list_stands_in_a_field_a_variant_and_another_list(rt: HostRuntime) -> Result<(), Fail> {
    let row = List::of([1, 2].to_vec(rt.alloc())?);
    let mut rows = Vec::new(rt.alloc());
    rows.push(row)?;
    let shelf = Shelf {
        rows: List::of(rows),
    };
    for row in shelf.rows.items() {
        assert_eq!(rt; row.items().as_slice(), [1, 2].as_slice());
    }
    assert_eq!(rt; shelf.rows.into_items().len(), 1);
    for held in [
        Held::Nothing,
        Held::Words(List::of([7].to_vec(rt.alloc())?)),
    ] {
        match held {
            Held::Nothing => {}
            Held::Words(words) => assert_eq!(rt; words.into_items().as_slice(), [7].as_slice()),
        }
    }
    Ok(())
}
