// Images of version 2, and what `upgrade` makes of those of version 1.

use super::{end_not_short, image_of, is_file, is_written_again};
use byteorder::{ByteOrder, LittleEndian};
use std::alloc::Global;
use std::process::Abort;
use svc_samples::{P, P2};

// What the readers of an image answer: its version, its read-only words, and the limits at 0, 4 and 12.
fn shown(rt: &impl Abort, alloc: Global, file: &[u8]) -> (u16, u32, [Option<u32>; 3]) {
    let image = image_of(rt, alloc, file);
    let limits = [image.limit_at(0), image.limit_at(4), image.limit_at(12)];
    (image.version().number(), image.read_only(), limits)
}

#[test]
fn both_versions_are_read(rt: HostRuntime) {
    let one = (1, 0, [Some(100), None, Some(100)]);
    let two = (2, 1, [Some(3), None, Some(6)]);
    let found = [shown(&rt, rt.alloc(), &P), shown(&rt, rt.alloc(), &P2)];
    assert_eq!(rt; found, [one, two]);
}

#[test]
fn each_proper_front_of_version_2_is_short(rt: HostRuntime) {
    assert_eq!(rt; end_not_short(rt.alloc(), &P2), None);
}

#[test]
fn an_image_is_written_in_its_version(rt: HostRuntime) {
    assert_eq!(rt; is_written_again(&rt, rt.alloc(), &P2), (true, true));
}

// Whether the file of an image's upgrade is these bytes, and whether the image is the same as its upgrade.
fn upgraded(rt: &impl Abort, alloc: Global, file: &[u8], wanted: &[u8]) -> (bool, bool) {
    let image = image_of(rt, alloc, file);
    let upgrade = image.upgrade(alloc).expect(rt, "an upgrade");
    (
        is_file(rt, alloc, &upgrade, wanted),
        image.is_same(&upgrade),
    )
}

#[test]
fn an_upgrade_has_the_limit_at_each_entry(rt: HostRuntime) {
    let mut wanted = P2;
    LittleEndian::write_u32(&mut wanted[16..], 0);
    LittleEndian::write_u32(&mut wanted[156..], 100);
    LittleEndian::write_u32(&mut wanted[160..], 100);
    assert_eq!(rt; upgraded(&rt, rt.alloc(), &P, &wanted), (true, false));
}

#[test]
fn an_image_of_version_2_is_its_upgrade(rt: HostRuntime) {
    assert_eq!(rt; upgraded(&rt, rt.alloc(), &P2, &P2), (true, true));
}
