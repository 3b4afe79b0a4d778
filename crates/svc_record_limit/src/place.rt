// Where in a text of records its next byte is.

ghost use Rattle.std.specs.Prelude.{◌≡◌, ◌≢◌, ◌⊎◌};
ghost use Rattle.svc_record_limit.specs.Places.{place_after};
ghost use Rattle.svc_record_limit.specs.declared.place.Place.TheVariants as place;

// Where in a text its next byte is. A line end within quotes ends nothing.
#[derive(Clone, Copy)]
pub(crate) enum Place {
    // At the text's start, or after one or two bytes of a byte order mark.
    Front,
    MarkBegun,
    MarkHalf,
    // Between two records.
    Between,
    // At the start of a field after the record's first one.
    Field,
    // In a field without quotes, or after those that it has.
    Plain,
    // Within quotes.
    Quoted,
    // After a quote within quotes: it ends them or, with another one after it, stands for a quote.
    Quote,
}

impl Place {
    // After a quote that is within no others.
    fn after_quote(self) -> Place
        ensures { self ≢ place.Quoted → result ≡ place_after self 34 }
    {
        match self {
            Place::Front | Place::Between | Place::Field | Place::Quote => Place::Quoted,
            _ => Place::Plain,
        }
    }

    // After a byte of a byte order mark, outside of quotes.
    fn after_mark(self, byte: u8) -> Place
        ensures { self ≢ place.Quoted → (byte ≡ 239) ⊎ (byte ≡ 187) ⊎ (byte ≡ 191) → result ≡ place_after self byte }
    {
        match (self, byte) {
            (Place::Front, 0xEF) => Place::MarkBegun,
            (Place::MarkBegun, 0xBB) => Place::MarkHalf,
            (Place::MarkHalf, 0xBF) => Place::Between,
            _ => Place::Plain,
        }
    }

    // After this byte.
    pub(crate) fn after(self, byte: u8) -> Place
        ensures { result ≡ place_after self byte }
    {
        if self == Place::Quoted {
            return if byte == b'"' {
                Place::Quote
            } else {
                Place::Quoted
            };
        }
        match byte {
            b',' => Place::Field,
            b'\r' | b'\n' => Place::Between,
            b'"' => self.after_quote(),
            0xEF | 0xBB | 0xBF => self.after_mark(byte),
            _ => Place::Plain,
        }
    }
}
