ghost use Rattle.std.specs.Prelude.{◌≡◌};
ghost use Rattle.std.specs.Option.{option_map};
ghost use Rattle.replay_script.specs.Cut as spec;

/// What a byte of a line stands in.
#[derive(Clone, Copy, Debug)]
pub(crate) enum Quoting {
    /// In no quotes.
    Outside,
    /// In quotes.
    Inside,
    /// In quotes, behind a backslash.
    Escaped,
}

impl Quoting {
    /// What the next byte stands in.
    fn behind(self, byte: u8) -> Quoting
        ensures { result ≡ spec.quoting_behind self byte }
    {
        match (self, byte) {
            (Quoting::Outside, b'"') => Quoting::Inside,
            (Quoting::Outside, _) => Quoting::Outside,
            (Quoting::Inside, b'"') => Quoting::Outside,
            (Quoting::Inside, b'\\') => Quoting::Escaped,
            (Quoting::Inside, _) => Quoting::Inside,
            (Quoting::Escaped, _) => Quoting::Inside,
        }
    }

    /// Whether the byte ends an argument.
    fn is_end(self, byte: u8) -> bool
        ensures { result ≡ spec.ends_argument self byte }
    {
        matches!(self, Quoting::Outside) && byte == b' '
    }
}

/// The place of the first space in no quotes.
fn space_place(text: &[u8]) -> Option<usize>
    ensures { result ≡ spec.space_place Quoting.Outside text.now }
{
    let mut quoting = Quoting::Outside;
    for (place, byte) in text.iter().enumerate() {
        if quoting.is_end(*byte) {
            return Some(place);
        }
        quoting = quoting.behind(*byte);
    }
    None
}

/// The argument that a text begins with.
#[derive(Clone, Copy, Debug)]
pub(crate) struct Parts<'a> {
    pub argument: &'a str,
    /// What stands behind the space that ends the argument.
    pub rest: &'a str,
}

/// Cuts the text at its first space in no quotes, if it has one.
pub(crate) fn cut(text: &str) -> Option<Parts<'_>>
    ensures { option_map (λ parts. record { argument = parts.argument.now; rest = parts.rest.now }) result ≡ spec.cut text.entry.now }
{
    let place = space_place(text.as_bytes())?;
    Some(Parts {
        argument: &text[..place],
        rest: &text[place + 1..],
    })
}
