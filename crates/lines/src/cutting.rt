// Cuts of a text at a byte, and its fields between commas.
ghost use Rattle.std.specs.Prelude.{◌≡◌};
ghost use Rattle.std.specs.Iterator.{YieldsFirstRef, item_count};
ghost use Rattle.lines.specs.Cuts.{parts, cut_at, CutFirst};
ghost use Rattle.lines.specs.Fields.{fields, further, FirstOf, FieldsOf};

// The byte between two fields.
pub const COMMA: u8 = b',';

// The bytes before the first `sep` and those behind it, absent where there is no `sep`.
pub fn split_once<'a>(text: &'a [u8], sep: u8) -> Option<(&'a [u8], &'a [u8])>
    ensures value { parts result ≡ cut_at sep text.now }
    ensures law { CutFirst sep text.now (parts result) }
{
    let i = text.iter().position(|b| *b == sep)?;
    Some((&text[..i], &text[i + 1..]))
}

// The first field of a text, and what follows its comma where there is one.
#[derive(Clone, Copy)]
pub struct FirstField<'a> {
    pub first: &'a [u8],
    pub rest: Option<&'a [u8]>,
}

// The first field of `text`. Two commas in a row, or one at an end, have an empty field beside them.
pub fn first_field<'a>(text: &'a [u8]) -> FirstField<'a>
    ensures { FirstOf text.now result }
{
    match split_once(text, COMMA) {
        Some((first, rest)) => FirstField {
            first,
            rest: Some(rest),
        },
        None => FirstField {
            first: text,
            rest: None,
        },
    }
}

// The fields of a text that are still to be read.
#[derive(Clone, Copy)]
pub struct Fields<'a> {
    rest: Option<&'a [u8]>,
}

impl<'a> Fields<'a> {
    pub fn new(text: &'a [u8]) -> Self
        ensures fields { further result.rest ≡ fields text.now }
        ensures law { FieldsOf text.now (fields text.now) }
    {
        Fields { rest: Some(text) }
    }
}

// The next field comes first, and none behind the last.
impl<'a> Iterator for Fields<'a> {
    type Item = &'a [u8];

    ghost next_gives = { YieldsFirstRef (λ fields. further fields.rest) };

    ghost remaining = { item_count (λ fields. further fields.rest) };

    fn next(&mut self) -> Option<&'a [u8]> {
        let FirstField { first, rest } = first_field(self.rest?);
        self.rest = rest;
        Some(first)
    }
}
