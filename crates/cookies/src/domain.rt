//! The domain that an argument names.
ghost use Rattle.std.specs.Prelude.{◌≡◌, IfOk, string_bytes};
ghost use Rattle.cookies.specs.Domains.{has_domain, named_domain};

use cookie_store::CookieStore;
use cookie_store::netscape::read_domain;
use cookie_words::without_dot;
use std::alloc::AllocError;

/// Returns the domain that an argument names: the argument without one dot before it if a cookie has
/// that domain, else the domain that it names in a line of a `cookies.txt`.
pub fn named_domain(store: &CookieStore, argument: &str) -> Result<String, AllocError>
    ensures { IfOk result (λ domain. string_bytes domain ≡ named_domain store.now.rows argument.now) }
{
    let domain = without_dot(argument);
    if has_domain(store, domain) {
        String::from_str(store.allocator(), domain)
    } else {
        read_domain(store.allocator(), argument)
    }
}

fn has_domain(store: &CookieStore, domain: &str) -> bool
    ensures { result ≡ has_domain domain.now store.now.rows }
{
    for cookie in store.iter_any() {
        if cookie.domain.as_str() == domain {
            return true;
        }
    }
    false
}
