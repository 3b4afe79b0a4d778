//! What would be right of a configuration or an image, in a line.

ghost use Rattle.std.specs.Prelude.{◌≡◌};
ghost use Rattle.svc_reasons.specs.Words.{config_words, image_words};

use svc_base::ConfigError;
use svc_image::ImageError;

/// The option whose number is out of its range, and the range.
pub fn config_sentence(error: ConfigError) -> &'static str
    ensures { result.now ≡ config_words error }
{
    match error {
        ConfigError::Units => "--units is 1 to 16",
        ConfigError::Sets => "--sets is a power of two from 1 to 256",
        ConfigError::Ways => "--ways is 1 to 4",
        ConfigError::Events => "--events is 1 to 1000000",
        ConfigError::Turns => "--turns is 1 to 10000000",
    }
}

/// The field of an image's file that is wrong, and what would be right.
pub fn image_sentence(error: ImageError) -> &'static str
    ensures { result.now ≡ image_words error }
{
    match error {
        ImageError::Short => "the image's file ends before its last field does",
        ImageError::Magic => {
            "the image's file doesn't begin with SVCI; a text has to be assembled first: svcsim assemble TEXT IMAGE"
        }
        ImageError::Version => {
            "the version, bytes 4 and 5 of the image's file, has to be 1 or 2"
        }
        ImageError::Count => {
            "the image's file has to have 1 to 1024 entries, 1 to 65536 words of text and as many of data, no more \
             read-only words than words of data, and limits of 1 to 65536 turns"
        }
        ImageError::EntryOrder =>
            "each entry of the image's file has to be above the one before it",
        ImageError::EntryPlace => {
            "each entry of the image's file has to be a multiple of 4 below 4 times its number of text words"
        }
        ImageError::Start =>
            "the start, bytes 20 to 23 of the image's file, has to be one of its entries",
        ImageError::Trailing => "the image's file goes on behind its last word of data",
        ImageError::Memory => "memory ran out",
    }
}
