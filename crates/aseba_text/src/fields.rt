//! The fields of a line, which are separated by one blank each.
ghost use Rattle.std.specs.Prelude.{◌≡◌, ◌<◌, ◌∷◌, length, IfSome};
ghost use Rattle.std.specs.Option.{option_map};
ghost use Rattle.aseba_text.specs.Fields as spec;

/// What stands before the first blank, and behind it; none where there is no blank.
pub fn cut(text: &[u8]) -> Option<(&[u8], &[u8])>
    ensures value { option_map (λ c. (c.0.now, c.1.now)) result ≡ spec.cut text.now }
    ensures shorter { IfSome result (λ c. length c.1.now < length text.now) }
{
    for (i, b) in text.iter().enumerate() {
        if *b == b' ' {
            return Some((&text[..i], &text[i + 1..]));
        }
    }
    None
}

/// The first field, and what stands behind its blank; none where the text ends with the field.
pub fn first_field(text: &[u8]) -> (&[u8], Option<&[u8]>)
    ensures value { spec.fields text.now ≡ result.0.now ∷ spec.fields_behind (option_map (λ rest. rest.now) result.1) }
    ensures shorter { IfSome result.1 (λ rest. length rest.now < length text.now) }
{
    match cut(text) {
        Some((field, rest)) => (field, Some(rest)),
        None => (text, None),
    }
}
