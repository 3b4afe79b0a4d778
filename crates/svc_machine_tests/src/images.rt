// What the readers of an image answer, and files that are cut short. Each other way to spoil a file is a case of the
// program.

use std::alloc::Global;
use std::process::Abort;
use svc_image::samples::P1;
use svc_image::{Fetched, Image};
use svc_samples::{P, R};

mod second_version;

// The number of the fault that these bytes have, or 0.
fn fault(alloc: Global, bytes: &[u8]) -> u8 {
    match Image::read(alloc, bytes) {
        Ok(_) => 0,
        Err(error) => error.number(),
    }
}

// The image of a file.
fn image_of(rt: &impl Abort, alloc: Global, file: &[u8]) -> Image {
    Image::read(alloc, file).expect(rt, "an image")
}

// Whether the file of an image is these bytes.
fn is_file(rt: &impl Abort, alloc: Global, image: &Image, bytes: &[u8]) -> bool {
    image.write(alloc).expect(rt, "a file").as_slice() == bytes
}

// Whether the file of an image is again these bytes, and the file of its copy.
fn is_written_again(rt: &impl Abort, alloc: Global, bytes: &[u8]) -> (bool, bool) {
    let image = image_of(rt, alloc, bytes);
    let copy = image.copy(alloc).expect(rt, "a copy");
    (
        is_file(rt, alloc, &image, bytes),
        is_file(rt, alloc, &copy, bytes),
    )
}

#[test]
fn samples_are_images(rt: HostRuntime) {
    for file in [P.as_slice(), P1.as_slice(), R.as_slice()] {
        assert_eq!(rt; is_written_again(&rt, rt.alloc(), file), (true, true));
    }
}

// The first length at which the front of these bytes has a fault other than being short.
fn end_not_short(alloc: Global, bytes: &[u8]) -> Option<usize> {
    for end in 0..bytes.len() {
        if fault(alloc, &bytes[..end]) != 1 {
            return Some(end);
        }
    }
    None
}

#[test]
fn each_proper_front_is_short(rt: HostRuntime) {
    assert_eq!(rt; end_not_short(rt.alloc(), &P), None);
}

// Whether the file of two tasks gives its start, its registers, its limits at 12 and 4, its entries and its data.
fn fields(rt: &impl Abort, alloc: Global) -> [bool; 6] {
    let image = image_of(rt, alloc, &P);
    [
        image.start() == 0,
        *image.registers() == [0; 31],
        image.limit_at(12) == Some(100),
        image.limit_at(4).is_none(),
        image.entries() == [0, 12].as_slice(),
        image.data_words() == [0, 0].as_slice(),
    ]
}

#[test]
fn fields_are_read(rt: HostRuntime) {
    assert_eq!(rt; fields(&rt, rt.alloc()), [true; 6]);
}

fn fetched(rt: &impl Abort, alloc: Global) -> [Fetched; 4] {
    let image = image_of(rt, alloc, &P);
    [
        image.fetch(4),
        image.fetch(12),
        image.fetch(14),
        image.fetch(36),
    ]
}

#[test]
fn words_are_fetched(rt: HostRuntime) {
    let is = |pc, word, entry| Fetched { pc, word, entry };
    let wanted = [
        is(4, Some(0x0050_0093), false),
        is(12, Some(0x0010_02b7), true),
        is(14, None, false),
        is(36, None, false),
    ];
    assert_eq!(rt; fetched(&rt, rt.alloc()), wanted);
}
