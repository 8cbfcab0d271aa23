//! The public suffix of a domain.
ghost use Rattle.std.specs.Prelude.{◌≡◌, drop, IfSome, option_map};
ghost use Rattle.std.specs.Str.{IsCharBoundary};
ghost use Rattle.std.specs.Str.Iter.{HasSubslice};
ghost use Rattle.cookie_psl.specs.Rules.{by_exception, by_rule, ending, labels_of, last_labels, prevailing, registrable_domain, suffix_of, without_final_dot, RuleList};
ghost use Rattle.cookie_psl.specs.Views.{suffix_value};

/// The public suffix of a domain, a slice of it.
#[derive(Clone, Copy, Debug)]
pub struct Suffix<'d> {
    text: &'d str,
    is_known: bool,
}

impl<'d> Suffix<'d> {
    /// Returns the suffix, with the trailing dot of the domain if there is one.
    pub fn as_str(&self) -> &'d str
        ensures { result.now ≡ (suffix_value self.now).text }
    {
        self.text
    }

    /// Returns whether a rule of the list matched the domain. If none did, the suffix is its last
    /// label.
    pub fn is_known(&self) -> bool
        ensures { result ≡ (suffix_value self.now).is_known }
    {
        self.is_known
    }
}

/// Returns the last `count` labels of `domain` as its public suffix, or `None` if it has none.
pub(crate) fn suffix_by(domain: &str, count: usize, is_known: bool) -> Option<Suffix<'_>>
    ensures value { (rules : RuleList) → count ≡ (prevailing rules (labels_of (without_final_dot domain.now))).count
        → is_known ≡ (prevailing rules (labels_of (without_final_dot domain.now))).is_known → option_map suffix_value result ≡ suffix_of rules domain.now }
    ensures slice { IfSome result (λ suffix. HasSubslice domain.now (suffix_value suffix).text) }
{
    if without_final_dot(domain).is_empty() {
        return None;
    }
    Some(Suffix {
        text: from_labels(domain, count),
        is_known,
    })
}

/// Returns the last `count + 1` labels of `domain`, or `None` if it has no more than `count`.
pub(crate) fn registrable_by(domain: &str, count: usize) -> Option<&str>
    ensures { (rules : RuleList) → count ≡ (prevailing rules (labels_of (without_final_dot domain.now))).count
        → option_map (λ text. text.now) result ≡ registrable_domain rules domain.now }
{
    if from_labels(domain, count) == domain {
        return None;
    }
    Some(from_labels(domain, count.saturating_add(1)))
}

/// Returns the domain without one trailing dot.
pub(crate) fn without_final_dot(domain: &str) -> &str
    ensures { result.now ≡ without_final_dot domain.now }
{
    domain.strip_suffix('.').unwrap_or(domain)
}

/// Returns the number of labels of the suffix, and whether a rule of the list matched. `exception`
/// and `rule` are the numbers of labels of the longest matching exception and of the longest other
/// matching rule.
pub(crate) fn prevailing_count(exception: Option<usize>, rule: Option<usize>) -> (usize, bool)
    ensures count { result.0 ≡ (by_exception exception (by_rule rule)).count }
    ensures is_known { result.1 ≡ (by_exception exception (by_rule rule)).is_known }
{
    match (exception, rule) {
        (Some(labels), _) => (labels.saturating_sub(1), true),
        (None, Some(labels)) => (labels, true),
        (None, None) => (1, false),
    }
}

// Returns the last `count` labels of a domain, with its trailing dot.
fn from_labels(domain: &str, count: usize) -> &str
    ensures value { result.now ≡ ending count domain.now }
    ensures slice { HasSubslice domain.now result.now }
{
    let start = labels_start(without_final_dot(domain), count);
    &domain[start..]
}

// Returns the position at which the last `count` labels begin.
fn labels_start(domain: &str, count: usize) -> usize
    ensures labels { drop result domain.now ≡ last_labels count domain.now }
    ensures cut { IsCharBoundary domain.now result }
{
    let mut prefix = domain;
    let mut start = domain.len();
    for _ in 0..count {
        match prefix.rsplit_once('.') {
            Some((before, _)) => {
                start = before.len() + 1;
                prefix = before;
            }
            None => return 0,
        }
    }
    start
}
