//! Laws of calls under the draft's rules.
ghost use Rattle.std.specs.List.{list_any, All};
ghost use Rattle.std.specs.Prelude.{◌≡◌, ℕ, [], false, true, List, Some};
ghost use Rattle.url.specs.Parts.{Parts};
ghost use Rattle.cookie_words.specs.Moments.{Moment};
ghost use Rattle.cookie_psl.specs.Rules.{RuleList};
ghost use Rattle.cookie_parts.specs.Cookie.{is_secure_only, Row};
ghost use Rattle.cookie_parts.specs.Hosts.{host_of, is_host_name, Covers};
ghost use Rattle.cookie_laws.specs.Contents.{Contents};
ghost use Rattle.cookie_laws.specs.Given.{given};
ghost use Rattle.cookie_laws.specs.Header.{InHeaderOrder};
ghost use Rattle.cookie_laws.specs.Rows.{is_unexpired, row_of, Key};
ghost use Rattle.cookie_laws.specs.Runs.{store_after, Call, Insert, Set};
ghost use Rattle.cookie_strict.specs.HostPrefix.{IsOwnIfHost};
ghost use Rattle.cookie_strict.specs.HttpPrefix.{IsSetByHttpIfNamed};
ghost use Rattle.cookie_strict.specs.Roots.{is_registrable, root_of};
ghost use Rattle.cookie_strict.specs.SecureUrl.{is_secure_url};
ghost use Rattle.cookie_strict.specs.Shards.{is_for_root, is_from_suffix, is_insecure_insertion, shard_calls, HasNoneBelowIpv4, IsSeparate};
ghost use Rattle.cookie_strict.specs.SiteRule.{IsConfinedToSite};
ghost use Rattle.cookie_strict.specs.StrictRuns.{allowed_calls, store_after_call, strict_call, strict_replies_to, strict_store_after, IsInsecureInsertion};

use cookie_laws::{
    accepted, confined, evictions_are_removals, keeps_other_rows, preserved_by_calls,
    restricted_to_domains,
};
use cookie_parts::laws::path_match_is_tested;

/// Calls under the rules leave the store that their allowed calls leave without them. So the laws of
/// runs hold of the allowed calls; which calls these are may depend on other domains. An allowed
/// insertion stands for the removals of the cookies that it evicts, and for a plain insertion.
pub fn strict_is_a_filter()
    ensures { (calls : List Call) (store : Contents) → strict_store_after calls store ≡ store_after (allowed_calls calls store) store }
{}

/// No insertion from a URL that is not secure replaces, expires or evicts a Secure row that has not
/// expired; nor do several, each at a time at which the row has not expired.
pub fn secure_is_left_alone()
    ensures inserted { (cookie : Row) (url : Parts) (now : Moment) (store : Contents) (key : Key) (row : Row)
        → is_secure_url url ≡ false → row_of key store.rows ≡ Some row → is_unexpired now row ≡ true → is_secure_only row.raw ≡ true
        → row_of key (store_after_call (strict_call (Insert cookie url now) store) store).rows ≡ Some row }
    ensures set { (text : List ℕ) (url : Parts) (now : Moment) (store : Contents) (key : Key) (row : Row)
        → is_secure_url url ≡ false → row_of key store.rows ≡ Some row → is_unexpired now row ≡ true → is_secure_only row.raw ≡ true
        → row_of key (store_after_call (strict_call (Set text url now) store) store).rows ≡ Some row }
    ensures runs { (calls : List Call) (store : Contents) (key : Key) (row : Row)
        → All (IsInsecureInsertion row) calls → is_secure_only row.raw ≡ true → row_of key store.rows ≡ Some row
        → row_of key (strict_store_after calls store).rows ≡ Some row }
{
    keeps_other_rows();
    evictions_are_removals();
    path_match_is_tested();
}

/// In a store that was begun without rows, every row whose name begins with `__Host-` is of a
/// host-only cookie, and was stored by an allowed call from a secure URL with that host. It may have
/// been expired since.
pub fn host_prefix_is_confined()
    ensures { (calls : List Call) (store : Contents) → store.rows ≡ [] → All (IsOwnIfHost (allowed_calls calls store) store) (strict_store_after calls store).rows }
{
    strict_is_a_filter();
    accepted();
}

/// In a store that was begun without rows, every row whose name begins with `__Http-` or `__Host-Http-`
/// is Secure and HttpOnly, and was stored by an allowed call from a secure URL with an HTTP scheme. It
/// may have been expired since.
pub fn http_prefix_is_confined()
    ensures { (calls : List Call) (store : Contents) → store.rows ≡ [] → All (IsSetByHttpIfNamed (allowed_calls calls store) store) (strict_store_after calls store).rows }
{
    strict_is_a_filter();
    accepted();
}

/// In a store that was begun without rows and with a public suffix list, each cookie given after
/// calls under the rules was accepted by an allowed call. That call's URL has the host of this one;
/// or the cookie is a domain cookie whose domain covers both hosts, and the site of the first host
/// covers the other.
pub fn confined_to_site()
    ensures { (rules : RuleList) (url : Parts) (now : Moment) (calls : List Call) (store : Contents) → store.rows ≡ [] → store.suffixes ≡ Some rules
        → All (IsConfinedToSite rules (allowed_calls calls store) store url) (given url now (strict_store_after calls store).rows) }
{
    strict_is_a_filter();
    confined();
}

/// A host name that is no public suffix has the root of each host that it covers. An IPv4 address
/// is its own root, although it covers the names below it.
pub fn one_root()
    ensures { (rules : RuleList) (domain host : List ℕ) → is_host_name domain ≡ true → is_registrable rules domain ≡ true → Covers domain host
        → root_of rules domain ≡ root_of rules host }
{}

/// The premise of [`sharded`] on Secure cookies holds if all insertions came from secure URLs, or
/// if none came from a public suffix.
pub fn separate()
    ensures secure { (rules : RuleList) (host : List ℕ) (calls : List Call) → HasNoneBelowIpv4 host calls
        → list_any is_insecure_insertion calls ≡ false → IsSeparate rules host calls }
    ensures suffixes { (rules : RuleList) (host : List ℕ) (calls : List Call) → HasNoneBelowIpv4 host calls
        → list_any (is_from_suffix rules) calls ≡ false → IsSeparate rules host calls }
{}

/// Calls can be spread over stores by the root of the host that they are for; `shard` numbers the
/// roots. The store of a host's shard then does for the host what a store of all calls does: it
/// gives the same cookies for a URL, in the same order in the Cookie header, and the calls for the
/// host's root have the same replies. Both stores were begun without rows and with a public suffix
/// list.
///
/// `IsSeparate` is there for "leave secure cookies alone", which compares domains: after a Secure
/// cookie from `https://co.uk` the store rejects one of its name from `http://x.co.uk`, although the
/// first is host-only and the hosts have two roots. [`separate`] has two cases in which it holds. It
/// also excludes names below an IPv4 address, such as `a.1.2.3.4`: no `http` URL has one.
///
/// Without the rules calls cannot be spread: `Domain=lan` from `a.lan` is accepted if the list does
/// not have `lan`, and the cookie is given for `b.lan`, which has another root.
pub fn sharded()
    ensures given { (rules : RuleList) (shard : List ℕ → ℕ) (url : Parts) (host : List ℕ) (now : Moment) (calls : List Call) (store : Contents)
        → store.rows ≡ [] → store.suffixes ≡ Some rules → host_of url ≡ Some host → IsSeparate rules host calls
        → given url now (strict_store_after calls store).rows ≡ given url now (strict_store_after (shard_calls rules shard host calls) store).rows }
    ensures header { (rules : RuleList) (shard : List ℕ → ℕ) (url : Parts) (host : List ℕ) (now : Moment) (calls : List Call) (store : Contents) (cookies : List Row)
        → store.rows ≡ [] → store.suffixes ≡ Some rules → host_of url ≡ Some host → IsSeparate rules host calls
        → InHeaderOrder url now (strict_store_after calls store) cookies
        → InHeaderOrder url now (strict_store_after (shard_calls rules shard host calls) store) cookies }
    ensures replies { (rules : RuleList) (shard : List ℕ → ℕ) (host : List ℕ) (calls : List Call) (store : Contents)
        → store.rows ≡ [] → store.suffixes ≡ Some rules → IsSeparate rules host calls
        → strict_replies_to (is_for_root rules (root_of rules host)) calls store
        ≡ strict_replies_to (is_for_root rules (root_of rules host)) (shard_calls rules shard host calls) store }
{
    strict_is_a_filter();
    accepted();
    preserved_by_calls();
    restricted_to_domains();
}
