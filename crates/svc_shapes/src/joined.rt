// The shapes of things that are joined.

ghost use Rattle.std.specs.Prelude.{◌≡◌, ◌++◌, OnOk};
ghost use Rattle.svc_shapes.specs.Shapes.{group_close, group_open, joined_title, joined_words, plain_box, plain_line};

use crate::sheet::Point;
use std::alloc::AllocError;
use svc_text::{Part, put_parts};

/// The beginning of a group of elements that share these attributes.
#[tactic(auto, unfolding(crate::specs::Shapes::group_open))]
pub fn group_open(text: &mut Vec<u8>, attributes: &str) -> Result<(), AllocError>
    ensures { OnOk result (text.new.items ≡ text.old.items ++ group_open attributes.now) }
{
    put_parts(
        text,
        &[Part::Text("<g"), Part::Text(attributes), Part::Text(">\n")],
    )
}

/// Its end.
#[tactic(auto, unfolding(crate::specs::Shapes::group_close))]
pub fn group_close(text: &mut Vec<u8>) -> Result<(), AllocError>
    ensures { OnOk result (text.new.items ≡ text.old.items ++ group_close) }
{
    put_parts(text, &[Part::Text("</g>\n")])
}

/// A box with the group's attributes, which stays open for a title.
#[tactic(auto, unfolding(crate::specs::Shapes::plain_box))]
pub fn plain_box(
    text: &mut Vec<u8>,
    x: u64,
    y: u64,
    width: u64,
    height: u64,
) -> Result<(), AllocError>
    ensures { OnOk result (text.new.items ≡ text.old.items ++ plain_box x y width height) }
{
    put_parts(
        text,
        &[
            Part::Text("<rect x='"),
            Part::Number(x),
            Part::Text("' y='"),
            Part::Number(y),
            Part::Text("' width='"),
            Part::Number(width),
            Part::Text("' height='"),
            Part::Number(height),
            Part::Text("'>"),
        ],
    )
}

/// A line with the group's attributes, which stays open for a title.
#[tactic(auto, unfolding(crate::specs::Shapes::plain_line))]
pub fn plain_line(text: &mut Vec<u8>, from: Point, to: Point) -> Result<(), AllocError>
    ensures { OnOk result (text.new.items ≡ text.old.items ++ plain_line from.x from.y to.x to.y) }
{
    put_parts(
        text,
        &[
            Part::Text("<path d='M"),
            Part::Number(from.x as u64),
            Part::Text(" "),
            Part::Number(from.y as u64),
            Part::Text("L"),
            Part::Number(to.x as u64),
            Part::Text(" "),
            Part::Number(to.y as u64),
            Part::Text("'>"),
        ],
    )
}

/// The title of things that are joined: how many they are, and of which entries.
#[tactic(auto, unfolding(crate::specs::Shapes::joined_title))]
pub fn joined_title(
    text: &mut Vec<u8>,
    count: u64,
    name: &str,
    first: u64,
    last: u64,
) -> Result<(), AllocError>
    ensures { OnOk result (text.new.items ≡ text.old.items ++ joined_title count name.now first last) }
{
    put_parts(
        text,
        &[
            Part::Text("<title>"),
            Part::Number(count),
            Part::Text(" "),
            Part::Text(name),
            Part::Text(", entries "),
            Part::Number(first),
            Part::Text(" to "),
            Part::Number(last),
            Part::Text("</title>"),
        ],
    )
}

/// The words below the lanes of a picture that has such things.
#[tactic(auto, unfolding(crate::specs::Shapes::joined_words))]
pub fn joined_words(text: &mut Vec<u8>, bottom: u32) -> Result<(), AllocError>
    ensures { OnOk result (text.new.items ≡ text.old.items ++ joined_words bottom) }
{
    put_parts(
        text,
        &[
            Part::Text("<text x='835' y='"),
            Part::Number(bottom as u64 + 46),
            Part::Text(
                "' text-anchor='middle'>a mark stands for all of its kind near it; point at it for how many</text>\n",
            ),
        ],
    )
}
