//! The interface of a store that can be searched.
ghost use Rattle.std.specs.Prelude.{◌≡◌, ◌<◌, ◌+◌, ◌^◌, length, map, option_map, slice_get, IfSome};
ghost use Rattle.cookie_lookup.specs.Groups.{AreGroups};
ghost use Rattle.cookie_lookup.specs.SearchView.{SearchView, now_at, group_position, rows_in, under};

use cookie_parts::Cookie;

/// A store of rows in groups by domain, and within a domain by path, each found by a lookup.
///
/// `view_of` is what contracts know of it: the groups, the number of domain and path lookups so
/// far, and the rows of the current group, the path group that was found last.
pub trait Search {
    ghost view_of: { Self → SearchView };

    /// Returns the position of the domain's group.
    fn domain(&mut self, text: &str) -> Option<usize>
        requires { (view_of self.old).domains + 1 < 2 ^ 128 }
        ensures position { result ≡ group_position text.now (view_of self.old).groups }
        ensures view_of { view_of self.new ≡ record (view_of self.old) { domains = (view_of self.old).domains + 1 } };

    /// Returns the position of the path's group in the domain at position `domain`. If it is found,
    /// it becomes the current group.
    fn path(&mut self, domain: usize, text: &str) -> Option<usize>
        requires room { (view_of self.old).paths + 1 < 2 ^ 128 }
        requires domain { domain < length (view_of self.old).groups }
        ensures position { result ≡ group_position text.now (under domain (view_of self.old).groups) }
        ensures view_of { view_of self.new ≡ record (view_of self.old) {
          paths = (view_of self.old).paths + 1;
          current = now_at result (under domain (view_of self.old).groups) (view_of self.old).current;
        } };

    /// Returns the cookie at a position of the current group.
    fn cookie(&self, row: usize) -> Option<&Cookie<'static>>
        ensures cookie { option_map (λ c. c.now) result ≡ slice_get (rows_in (view_of self.now).current) row }
        ensures room { IfSome result (λ _. row + 1 < 2 ^ 64) };

    ghost are_groups: { (s : Self) → AreGroups (view_of s).groups };
}

/// A store that can also list its domains, and the paths of each domain.
pub trait ListedSearch: Search {
    /// Returns the number of domains.
    fn domain_count(&self) -> usize
        ensures { result ≡ length (Self.view_of self.now).groups };

    /// Returns the domain at a position.
    fn domain_text(&self, domain: usize) -> Option<&str>
        ensures { option_map (λ text. text.now) result ≡ slice_get (map (λ g. g.0) (Self.view_of self.now).groups) domain };

    /// Returns the number of paths of the domain at position `domain`.
    fn path_count(&self, domain: usize) -> usize
        ensures { result ≡ length (under domain (Self.view_of self.now).groups) };

    /// Returns the path at position `path` of the domain at position `domain`.
    fn path_text(&self, domain: usize, path: usize) -> Option<&str>
        ensures { option_map (λ text. text.now) result
            ≡ slice_get (map (λ p. p.0) (under domain (Self.view_of self.now).groups)) path };
}
