//! The fields of a line.
ghost use Rattle.std.specs.Prelude.{◌≡◌, ◌∷◌, [], ℕ, List, None, Some, is_some, option_map, MatchOption};
ghost use Rattle.cookie_words.specs.Strings.{pieces};
ghost use Rattle.cookie_netscape.specs.Lines.{after_quote, are_fields, before_quote, fields_from, fields_of, flag_from, has_control, is_domain_field, is_name_field, is_path_field, is_unquoted, is_value_field, last_fields, path_from};
ghost use Rattle.cookie_netscape.specs.Views.{fields_view};

/// The fields of a line.
#[derive(Clone, Copy)]
pub(crate) struct Fields<'a> {
    pub(crate) domain: &'a str,
    pub(crate) subdomains: &'a str,
    pub(crate) path: &'a str,
    pub(crate) secure: &'a str,
    pub(crate) expiry: &'a str,
    pub(crate) name: &'a str,
    pub(crate) value: &'a str,
}

/// Splits a line into its fields, or returns `None` if there are too few or too many. A path and
/// an empty value may be missing.
pub(crate) fn split_fields(line: &str) -> Option<Fields<'_>>
    ensures { option_map fields_view result ≡ fields_from (pieces 9 line.now) }
{
    let (domain, rest) = split_field(line)?;
    let (subdomains, rest) = split_field(rest)?;
    let (path, rest) = split_path(rest)?;
    let (secure, rest) = split_field(rest)?;
    let (expiry, rest) = split_field(rest)?;
    let (name, value) = split_last(rest)?;
    Some(Fields {
        domain,
        subdomains,
        path,
        secure,
        expiry,
        name,
        value,
    })
}

// The first field, and what follows its HTAB; `None` if there is no HTAB.
fn split_field(text: &str) -> Option<(&str, &str)>
    ensures { MatchOption result (pieces 9 text.now ≡ text.now ∷ [])
        (λ parts. pieces 9 text.now ≡ parts.0.now ∷ pieces 9 parts.1.now) }
{
    text.split_once('\t')
}

/// Reads TRUE or FALSE, ignoring case.
pub(crate) fn read_flag(field: &str) -> Option<bool>
    ensures { result ≡ flag_from field.now }
{
    if field.eq_ignore_ascii_case("TRUE") {
        Some(true)
    } else if field.eq_ignore_ascii_case("FALSE") {
        Some(false)
    } else {
        None
    }
}

// The path, and what follows its HTAB. A path is missing if TRUE or FALSE is in its place.
fn split_path(text: &str) -> Option<(&str, &str)>
    ensures { MatchOption result
        ((domain subdomains : List ℕ) → fields_from (domain ∷ subdomains ∷ pieces 9 text.now) ≡ None)
        (λ parts. (domain subdomains : List ℕ) → fields_from (domain ∷ subdomains ∷ pieces 9 text.now)
        ≡ last_fields domain subdomains parts.0.now (pieces 9 parts.1.now)) }
{
    let (path, rest) = split_field(text)?;
    if is_flag(path) {
        Some(("/", text))
    } else {
        Some((path, rest))
    }
}

// The last two fields, the name and the value. An empty value may be missing.
fn split_last(text: &str) -> Option<(&str, &str)>
    ensures { MatchOption result
        ((domain subdomains path secure expiry : List ℕ)
        → last_fields domain subdomains path (secure ∷ expiry ∷ pieces 9 text.now) ≡ None)
        (λ parts. (domain subdomains path secure expiry : List ℕ)
        → last_fields domain subdomains path (secure ∷ expiry ∷ pieces 9 text.now)
        ≡ Some (fields_of domain subdomains path secure expiry parts.0.now parts.1.now)) }
{
    let Some((name, value)) = split_field(text) else {
        return Some((text, ""));
    };
    if value.as_bytes().contains(&b'\t') {
        return None;
    }
    Some((name, value))
}

/// Returns the path of a field: without the quotation marks around it, and `/` if it is empty.
pub(crate) fn read_path(field: &str) -> &str
    ensures { result.now ≡ path_from field.now }
{
    match before_quote(after_quote(field)) {
        "" => "/",
        path => path,
    }
}

// The string without one quotation mark at its start.
#[tactic(auto, unfolding(crate::specs::Lines::after_quote))]
fn after_quote(text: &str) -> &str
    ensures { result.now ≡ after_quote text.now }
{
    match text.strip_prefix("\"") {
        Some(rest) => rest,
        None => text,
    }
}

// The string without one quotation mark at its end.
#[tactic(auto, unfolding(crate::specs::Lines::before_quote))]
fn before_quote(text: &str) -> &str
    ensures { result.now ≡ before_quote text.now }
{
    match text.strip_suffix("\"") {
        Some(rest) => rest,
        None => text,
    }
}

/// Returns whether the strings are those of a cookie that the format can represent.
#[tactic(auto, unfolding(crate::specs::Lines::are_fields))]
#[inline(always)]
pub(crate) fn are_fields(host: &str, path: &str, name: &str, value: &str) -> bool
    ensures { result ≡ are_fields host.now path.now name.now value.now }
{
    is_domain_field(host) && is_path_field(path) && is_name_field(name) && is_value_field(value)
}

// Whether a line can begin with the domain.
fn is_domain_field(domain: &str) -> bool
    ensures { result ≡ is_domain_field domain.now }
{
    match domain.as_bytes().first() {
        Some(b'#' | b'$' | b'.' | b' ') | None => false,
        Some(_) => !has_control(domain),
    }
}

// Whether this is a path that reads back.
fn is_path_field(path: &str) -> bool
    ensures { result ≡ is_path_field path.now }
{
    !path.is_empty() && is_unquoted(path) && !is_flag(path) && !has_control(path)
}

// Whether there is no quotation mark at either end.
fn is_unquoted(text: &str) -> bool
    ensures { result ≡ is_unquoted text.now }
{
    !text.starts_with("\"") && !text.ends_with("\"")
}

fn is_flag(field: &str) -> bool
    ensures { result ≡ is_some (flag_from field.now) }
{
    read_flag(field).is_some()
}

// Whether this is the name of a cookie-pair, in one field.
fn is_name_field(name: &str) -> bool
    ensures { result ≡ is_name_field name.now }
{
    !name.is_empty() && !name.as_bytes().contains(&b'=') && is_value_field(name)
}

// Whether this is the value of a cookie-pair, in one field.
#[inline(always)]
fn is_value_field(value: &str) -> bool
    ensures { result ≡ is_value_field value.now }
{
    !value.as_bytes().contains(&b';')
        && !value.starts_with(" ")
        && !value.ends_with(" ")
        && !has_control(value)
}

// Whether there is a control character, such as HTAB or a line end.
fn has_control(text: &str) -> bool
    ensures { result ≡ has_control text.now }
{
    let mut found = false;
    // Without an early end, LLVM tests many bytes in one step.
    for byte in text.as_bytes() {
        found |= byte.is_ascii_control();
    }
    found
}
