//! Positions of cookies that are found in lists of the caller's own.
use crate::built::cookie;
use crate::checks::is_equal;
use crate::list_search::{DomainCookies, Group, PathCookies, positions_of};
use crate::steps::new_year;
use crate::texts::url;
use cookie_store::Cookie;
use std::alloc::Global;
use std::process::Abort;

// A path, and the `Set-Cookie` values of its cookies.
#[derive(Clone, Copy)]
struct Path {
    path: &'static str,
    values: &'static [&'static str],
}

// A domain, a URL that it received its cookies from, and its paths.
#[derive(Clone, Copy)]
struct Domain {
    domain: &'static str,
    from: &'static str,
    paths: &'static [Path],
}

static DOMAINS: [Domain; 3] = [
    Domain {
        domain: "example.com",
        from: "http://example.com/",
        paths: &[
            Path {
                path: "/",
                values: &["a=1; Path=/", "b=2; Path=/; Domain=example.com"],
            },
            Path {
                path: "/docs",
                values: &[
                    "c=3; Path=/docs; Domain=example.com",
                    "d=4; Path=/docs; Max-Age=0",
                ],
            },
            Path {
                path: "/docs/",
                values: &["e=5; Path=/docs/"],
            },
        ],
    },
    Domain {
        domain: "127.0.0.1",
        from: "http://127.0.0.1/",
        paths: &[Path {
            path: "/",
            values: &["f=6; Path=/"],
        }],
    },
    Domain {
        domain: "www.example.com",
        from: "http://www.example.com/",
        paths: &[Path {
            path: "/",
            values: &["g=7; Path=/; Domain=www.example.com; Secure"],
        }],
    },
];

// A URL, and the positions of its cookies.
type Found = (&'static str, &'static [(usize, usize, usize)]);

static FOUND: [Found; 10] = [
    (
        "http://example.com/docs/x",
        &[(0, 0, 0), (0, 0, 1), (0, 1, 0), (0, 2, 0)],
    ),
    (
        "http://example.com/docs",
        &[(0, 0, 0), (0, 0, 1), (0, 1, 0)],
    ),
    ("http://example.com/docsearch", &[(0, 0, 0), (0, 0, 1)]),
    ("http://www.example.com/docs/", &[(0, 0, 1), (0, 1, 0)]),
    ("https://www.example.com/", &[(0, 0, 1), (2, 0, 0)]),
    ("http://127.0.0.1/x", &[(1, 0, 0)]),
    ("http://127.0.0.2/x", &[]),
    ("http://notexample.com/", &[]),
    ("http://com/", &[]),
    ("data:x", &[]),
];

fn cookies(rt: &impl Abort, alloc: Global, from: &str, values: &[&str]) -> Vec<Cookie<'static>> {
    let mut cookies = Vec::new(alloc);
    for value in values {
        let cookie = cookie(rt, alloc, &(from, value));
        cookies.push(cookie).expect(rt, "memory");
    }
    cookies
}

fn paths(rt: &impl Abort, alloc: Global, listed: &Domain) -> Vec<PathCookies> {
    let mut paths = Vec::new(alloc);
    for path in listed.paths {
        let name = String::from_str(alloc, path.path).expect(rt, "memory");
        let cookies = cookies(rt, alloc, listed.from, path.values);
        paths.push(Group::new(name, cookies)).expect(rt, "memory");
    }
    paths
}

fn domains(rt: &impl Abort, alloc: Global, listed: &[Domain]) -> Vec<DomainCookies> {
    let mut domains = Vec::new(alloc);
    for domain in listed {
        let name = String::from_str(alloc, domain.domain).expect(rt, "memory");
        let paths = paths(rt, alloc, domain);
        domains.push(Group::new(name, paths)).expect(rt, "memory");
    }
    domains
}

fn are_found(rt: &impl Abort, alloc: Global, groups: &[DomainCookies], wanted: &Found) {
    let url = url(rt, alloc, wanted.0);
    let found = positions_of(groups, alloc, &url, new_year()).expect(rt, "groups");
    let positions = found.expect(rt, "memory");
    is_equal(rt, &positions.as_slice(), &wanted.1, &wanted.0);
}

// By RFC 6265 5.4: host-only and domain cookies, paths, expiry, Secure, and a host that is an
// address.
#[test]
fn cookies_are_found_in_lists(rt: HostRuntime) {
    let groups = domains(&rt, rt.alloc(), &DOMAINS);
    for wanted in &FOUND {
        are_found(&rt, rt.alloc(), groups.as_slice(), wanted);
    }
    drop(groups);
}
