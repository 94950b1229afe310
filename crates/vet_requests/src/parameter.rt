//! The parameters of a target.
ghost use Rattle.std.specs.Prelude.{◌≡◌};
ghost use Rattle.vet_requests.specs.Parameter.{after_slash, before_slash, first_parameter, second_parameter};
ghost use Rattle.vet_requests.specs.Parameter.{third_parameter};

/// The first parameter of a target: the text after its second slash, up to the next one or the end.
pub fn first_parameter(target: &str) -> &str
    ensures { result.now ≡ first_parameter target.now }
{
    before_slash(after_slash(after_slash(target)))
}

/// The second parameter, after the third slash.
pub fn second_parameter(target: &str) -> &str
    ensures { result.now ≡ second_parameter target.now }
{
    first_parameter(after_slash(target))
}

/// The third parameter, after the fourth slash.
pub fn third_parameter(target: &str) -> &str
    ensures { result.now ≡ third_parameter target.now }
{
    second_parameter(after_slash(target))
}

// The text before the first slash, or all of it if there is none.
fn before_slash(text: &str) -> &str
    ensures { result.now ≡ before_slash text.now }
{
    match text.split_once('/') {
        Some((before, _)) => before,
        None => text,
    }
}

// The text after the first slash, which is empty if there is none.
fn after_slash(text: &str) -> &str
    ensures { result.now ≡ after_slash text.now }
{
    match text.split_once('/') {
        Some((_, after)) => after,
        None => "",
    }
}
