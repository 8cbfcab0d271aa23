//! Blanks and tokens of RON.
ghost use Rattle.std.specs.Prelude.{◌≡◌, ◌==◌, IsTrue, length, not, None, Some, IfOk, IfErr};
ghost use Rattle.std.specs.Char.{is_ascii};
ghost use Rattle.std.specs.List.{list_all, position};
ghost use Rattle.std.specs.Str.{chars};
ghost use Rattle.cookie_ron.specs.Grammar.{is_blank};
ghost use Rattle.cookie_ron.specs.RonInput.{drop_blanks, behind, token_at, close_at, name_at};

use cookie_forms::SavedError;

// Whether the byte is a space, a tab, a line feed or a carriage return.
fn is_blank(byte: u8) -> bool
    ensures { result ≡ is_blank byte }
{
    byte == b' ' || byte == b'\t' || byte == b'\n' || byte == b'\r'
}

// The index of the first byte that is not a blank.
fn blanks_end(input: &str) -> Option<usize>
    ensures { result ≡ position (λ b. not (is_blank b)) input.now }
{
    input.as_bytes().iter().position(|byte| !is_blank(*byte))
}

// The rest of the input after any blanks.
fn drop_blanks(input: &str) -> &str
    ensures { chars result.now ≡ drop_blanks (chars input.now) }
{
    let start = blanks_end(input).unwrap_or(input.len());
    &input[start..]
}

// Whether no more than blanks is left of the input.
pub(crate) fn is_at_end(input: &str) -> bool
    ensures { result ≡ (length (drop_blanks (chars input.now)) == 0) }
{
    drop_blanks(input).is_empty()
}

// The rest of the input after exactly these characters.
pub(crate) fn behind<'a>(token: &str, input: &'a str) -> Result<&'a str, SavedError>
    requires { IsTrue (list_all is_ascii token.now) }
    ensures read { IfOk result (λ rest. behind token.now (chars input.now) ≡ Some (chars rest.now)) }
    ensures errors { IfErr result (λ e. (e ≡ SavedError.Ron) × (behind token.now (chars input.now) ≡ None)) }
{
    match input.strip_prefix(token) {
        Some(rest) => Ok(rest),
        None => Err(SavedError::Ron),
    }
}

// The rest of the input after a token, with any blanks before it.
pub(crate) fn token_at<'a>(token: &str, input: &'a str) -> Result<&'a str, SavedError>
    requires { IsTrue (list_all is_ascii token.now) }
    ensures read { IfOk result (λ rest. token_at token.now (chars input.now) ≡ Some (chars rest.now)) }
    ensures errors { IfErr result (λ e. (e ≡ SavedError.Ron) × (token_at token.now (chars input.now) ≡ None)) }
{
    behind(token, drop_blanks(input))
}

// The rest of the input after a closing bracket or parenthesis, with an optional comma before it.
pub(crate) fn close_at<'a>(token: &str, input: &'a str) -> Result<&'a str, SavedError>
    requires { IsTrue (list_all is_ascii token.now) }
    ensures read { IfOk result (λ rest. close_at token.now (chars input.now) ≡ Some (chars rest.now)) }
    ensures errors { IfErr result (λ e. (e ≡ SavedError.Ron) × (close_at token.now (chars input.now) ≡ None)) }
{
    match token_at(",", input) {
        Ok(rest) => token_at(token, rest),
        Err(_) => token_at(token, input),
    }
}

// The rest of the input after a field's name and colon.
#[tactic(auto, unfolding(crate::specs::RonInput::name_at))]
pub(crate) fn name_at<'a>(name: &str, input: &'a str) -> Result<&'a str, SavedError>
    requires { IsTrue (list_all is_ascii name.now) }
    ensures read { IfOk result (λ rest. name_at name.now (chars input.now) ≡ Some (chars rest.now)) }
    ensures errors { IfErr result (λ e. (e ≡ SavedError.Ron) × (name_at name.now (chars input.now) ≡ None)) }
{
    token_at(":", token_at(name, input)?)
}
