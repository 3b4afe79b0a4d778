// Why a line may not stand where it stands, or why the lines make no image.

ghost use Rattle.std.specs.Prelude.{◌≡◌};
ghost use Rattle.svc_layout.specs.declared.refusal.Refusal.TheVariants as refusal;

use std::alloc::{AllocError, AllocFailed};
use thiserror::Error;

/// Why a line may not stand where it does, or why the lines make no image: each names what may stand there.
#[derive(Clone, Copy, Debug, Error)]
pub enum Refusal {
    #[error("no more than 65536 words of text")]
    FullText,
    #[error("no more than 65536 words of data")]
    FullData,
    #[error("no more than 1024 entries")]
    FullEntries,
    #[error("no more than 4096 local labels")]
    FullLocals,
    #[error("no more than 256 texts")]
    FullTexts,
    #[error("data, or .text above an instruction")]
    InData,
    #[error("instructions and words, or .data above other data")]
    InText,
    #[error("a register from x1 to x31")]
    ZeroRegister,
    #[error("a number from 1 to 65536")]
    Limit,
    #[error("a name that stands for nothing else")]
    LabelTwice,
    #[error("an instruction between two entries")]
    EntryTwice,
    #[error("directives of one version of the image")]
    OtherVersion,
    #[error("whole words of data above .svc_readonly")]
    PartOfWord,
    #[error(".svc_entry above an instruction")]
    NoEntry,
    #[error("an instruction below the last .svc_entry")]
    NoInstruction,
    #[error("the address of an entry")]
    OtherStart,
    #[error("out of memory")]
    Memory,
}

impl From<AllocError> for Refusal {
    ghost from_gives = { λ _ e. e ≡ refusal.Memory };

    fn from(_error: AllocError) -> Refusal {
        Refusal::Memory
    }
}

impl<T: Drop> From<AllocFailed<T>> for Refusal {
    ghost from_gives = { λ _ e. e ≡ refusal.Memory };

    fn from(_error: AllocFailed<T>) -> Refusal {
        Refusal::Memory
    }
}
