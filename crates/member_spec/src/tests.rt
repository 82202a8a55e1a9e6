use super::*;
use bulk_descriptor::decode;
use phase_message::Shape;
use stage_log::StageLog;
use std::alloc::Global;
use std::test::Fail;
use wire_core::{Mem, put_bytes};

// A round of two members.
const TWO: Shape = Shape {
    version: 1,
    members: 2,
};

// The bytes of a descriptor for two members, by the layout alone: of a message of 258 bytes, with a hash of 3, pad hashes
// of 5 and of 6, and capsules of zeros.
fn descriptor_bytes(alloc: Global) -> Mem<Vec<u8>> {
    let mut bytes = Vec::new(alloc);
    put_bytes(&mut bytes, &[0, 0, 1, 2])?;
    put_bytes(&mut bytes, &[3; 32])?;
    put_bytes(&mut bytes, &[5; 32])?;
    put_bytes(&mut bytes, &[6; 32])?;
    put_bytes(&mut bytes, &[0; 4480])?;
    Ok(bytes)
}

#[test]
fn an_honest_member_leaves_its_descriptor(rt: HostRuntime) -> Result<(), Fail> {
    let alloc = rt.alloc();
    let bytes = descriptor_bytes(alloc)?;
    let own = decode(alloc, 2, &bytes)?.ok_or("a descriptor")?;
    let made = Honest.descriptor(alloc, own)?;
    assert_eq!(rt; made.encode(alloc)?.as_slice(), bytes.as_slice());
    Ok(())
}

#[test]
fn an_honest_member_says_what_it_is_given(rt: HostRuntime) -> Result<(), Fail> {
    let alloc = rt.alloc();
    let log = StageLog::new(alloc, TWO)?;
    let mut honest = Honest;
    let given = Vec::from_slice(alloc, b"no content at all")?;
    let Speech::Say(said) = honest.content(alloc, 4, given, &log)? else {
        return Err(Fail::from("it says nothing"));
    };
    assert_eq!(rt; said.items().as_slice(), b"no content at all".as_slice());
    let Speech::Say(nothing) = honest.content(alloc, 255, Vec::new(alloc), &log)? else {
        return Err(Fail::from("it says nothing"));
    };
    assert_eq!(rt; nothing.items().len(), 0);
    Ok(())
}
