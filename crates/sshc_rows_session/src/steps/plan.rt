//! The plan of a handler of the tests, what to do in a call and to return from it, as lines: `CALL does METHOD WORDS`
//! and `CALL answers WORDS`.

/// The text after the call and the verb, in a line that begins with them.
pub fn behind<'a>(line: &'a str, call: &str, verb: &str) -> Option<&'a str> {
    let (first, rest) = line.split_once(' ')?;
    let (second, rest) = rest.split_once(' ')?;
    if first == call && second == verb {
        Some(rest)
    } else {
        None
    }
}

/// The planned result of a call, if the plan states one.
pub fn answer<'a>(plan: &'a str, call: &str) -> Option<&'a str> {
    for line in plan.lines() {
        if let Some(rest) = behind(line, call, "answers") {
            return Some(rest);
        }
    }
    None
}
