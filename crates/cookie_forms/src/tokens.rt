//! Writes saved cookies as JSON tokens.
ghost use Rattle.std.specs.List.{list_any};
ghost use Rattle.std.specs.Prelude.{◌≡◌, List, [], ◌∷◌, ◌++◌, ℕ, false, map, option_map, OnOk};
ghost use Rattle.json.specs.Print.{IsPrintable};
ghost use Rattle.json.specs.Reads.{token_of};
ghost use Rattle.json.specs.Token.{Token as SpecToken};
ghost use Rattle.cookie_forms.specs.MomentText.{moment_text};
ghost use Rattle.cookie_forms.specs.Saved.{saved_view, domain_view, expiry_view};
ghost use Rattle.cookie_forms.specs.JsonText.{tokens_of_tree};
ghost use Rattle.cookie_forms.specs.ToJson.{domain_tree, expires_early, expiry_tree, is_early, list_tree, path_tree, saved_tree, tagged_tree};

use crate::moment::moment_bytes;
use crate::{Saved, SavedDomain, SavedExpiry};
use json::{Pretty, Token, Writer};
use std::alloc::AllocError;

// A writer of JSON tokens; its buffer holds `before` and the text of the tokens.
pub(crate) trait Tokens {
    ghost tokens: { Self → List SpecToken };

    ghost before: { Self → List ℕ };

    // Appends a token.
    fn token(&mut self, token: Token<'_>) -> Result<(), AllocError>
        requires { IsPrintable (token_of token) }
        ensures tokens { OnOk result (tokens self.new ≡ tokens self.old ++ token_of token.entry ∷ []) }
        ensures before { before self.new ≡ before self.old };
}

impl Tokens for Writer {
    ghost tokens = { λ w. w.tokens };

    ghost before = { λ w. w.before };

    fn token(&mut self, token: Token<'_>) -> Result<(), AllocError> {
        Writer::token(self, token)
    }
}

impl Tokens for Pretty {
    ghost tokens = { λ w. w };

    ghost before = { λ _. [] };

    fn token(&mut self, token: Token<'_>) -> Result<(), AllocError> {
        Pretty::token(self, token)
    }
}

// Appends a list in which no expiry is before the year 0.
pub(crate) fn write_list<W: Tokens>(list: &[Saved], out: &mut W) -> Result<(), AllocError>
    requires { list_any is_early (map saved_view list.now) ≡ false }
    ensures tokens { OnOk result (W.tokens out.new ≡ W.tokens out.old ++ tokens_of_tree (list_tree (map saved_view list.now))) }
    ensures before { W.before out.new ≡ W.before out.old }
{
    out.token(Token::BeginArray)?;
    for saved in list {
        write_saved(saved, out)?;
    }
    out.token(Token::EndArray)
}

// Appends a saved cookie whose expiry is not before the year 0.
pub(crate) fn write_saved<W: Tokens>(saved: &Saved, out: &mut W) -> Result<(), AllocError>
    requires { is_early (saved_view saved.now) ≡ false }
    ensures tokens { OnOk result (W.tokens out.new ≡ W.tokens out.old ++ tokens_of_tree (saved_tree (saved_view saved.now))) }
    ensures before { W.before out.new ≡ W.before out.old }
{
    out.token(Token::BeginObject)?;
    out.token(Token::Key("domain"))?;
    write_domain(&saved.domain, out)?;
    out.token(Token::Key("expires"))?;
    write_expiry(saved.expires, out)?;
    out.token(Token::Key("path"))?;
    write_path(saved.path.as_str(), saved.from_attr, out)?;
    out.token(Token::Key("raw_cookie"))?;
    out.token(Token::String(saved.raw_cookie.as_str()))?;
    out.token(Token::EndObject)
}

// Appends a domain.
fn write_domain<W: Tokens>(domain: &SavedDomain, out: &mut W) -> Result<(), AllocError>
    ensures tokens { OnOk result (W.tokens out.new ≡ W.tokens out.old ++ tokens_of_tree (domain_tree (domain_view domain.now))) }
    ensures before { W.before out.new ≡ W.before out.old }
{
    match domain {
        SavedDomain::HostOnly(text) => write_tagged("HostOnly", text.as_str(), out),
        SavedDomain::Suffix(text) => write_tagged("Suffix", text.as_str(), out),
        SavedDomain::NotPresent => out.token(Token::String("NotPresent")),
        SavedDomain::Empty => out.token(Token::String("Empty")),
    }
}

// Appends an expiry that is not before the year 0.
fn write_expiry<W: Tokens>(expires: SavedExpiry, out: &mut W) -> Result<(), AllocError>
    requires { expires_early (expiry_view expires) ≡ false }
    ensures tokens { OnOk result (W.tokens out.new
        ≡ W.tokens out.old ++ tokens_of_tree (expiry_tree (option_map moment_text (expiry_view expires)))) }
    ensures before { W.before out.new ≡ W.before out.old }
{
    match expires {
        SavedExpiry::AtUtc(moment) => {
            let text = moment_bytes(moment);
            write_tagged("AtUtc", str::from_utf8(&text).unwrap(), out)
        }
        SavedExpiry::SessionEnd => out.token(Token::String("SessionEnd")),
    }
}

// Appends a path, and whether a Path attribute set it.
fn write_path<W: Tokens>(path: &str, from_attr: bool, out: &mut W) -> Result<(), AllocError>
    ensures tokens { OnOk result (W.tokens out.new ≡ W.tokens out.old ++ tokens_of_tree (path_tree path.now from_attr)) }
    ensures before { W.before out.new ≡ W.before out.old }
{
    out.token(Token::BeginArray)?;
    out.token(Token::String(path))?;
    out.token(Token::Bool(from_attr))?;
    out.token(Token::EndArray)
}

// Appends an object with one member, a string.
fn write_tagged<W: Tokens>(tag: &str, text: &str, out: &mut W) -> Result<(), AllocError>
    ensures tokens { OnOk result (W.tokens out.new ≡ W.tokens out.old ++ tokens_of_tree (tagged_tree tag.now text.now)) }
    ensures before { W.before out.new ≡ W.before out.old }
{
    out.token(Token::BeginObject)?;
    out.token(Token::Key(tag))?;
    out.token(Token::String(text))?;
    out.token(Token::EndObject)
}
