//! Laws about the candidate domains and paths of a URL, and about the positions of the rows given
//! for it.
ghost use Rattle.std.specs.Cmp.{IsTotalOrder};
ghost use Rattle.std.specs.Bool.{Decides};
ghost use Rattle.std.specs.List.{flat_map, list_any};
ghost use Rattle.std.specs.List.Sorted.{IsPermutation, IsSorted};
ghost use Rattle.std.specs.Prelude.{◌≡◌, ◌≤◌, ◌+◌, ◌*◌, ℕ, bytes_eq, length, true, List};
ghost use Rattle.cookie_words.specs.Moments.{Moment};
ghost use Rattle.cookie_parts.specs.Cookie.{Row};
ghost use Rattle.cookie_parts.specs.Domain.{domain_text};
ghost use Rattle.cookie_laws.specs.Given.{given, is_given};
ghost use Rattle.cookie_laws.specs.Rows.{differ};
ghost use Rattle.cookie_lookup.specs.Groups.{flat, AreGroups, DomainGroups};
ghost use Rattle.cookie_lookup.specs.Positions.{groups_in_order, groups_by_position, place_order, PlacedGroups};
ghost use Rattle.cookie_lookup.specs.SearchView.{domains_found, given_positions, how_many_found, how_many_pairs_found, paths_found, rows_at, RowPosition};
ghost use Rattle.cookie_lookup.specs.Candidates.{url_candidate_domains, dots, candidate_paths, candidate_domains, slashes, IsCandidatePath, IsCandidateDomain};
ghost use Rattle.url.specs.Parts.{Parts};

/// The candidate domains and paths are exactly those that the definitions `IsCandidateDomain` and
/// `IsCandidatePath` describe. They differ, and there are at most as many as the bounds state. The
/// domain and the path of a cookie given for a URL are among them.
pub fn looked_up()
    ensures domains { (host text : List ℕ) → Decides (list_any (bytes_eq text) (candidate_domains host)) (IsCandidateDomain host text) }
    ensures paths { (path text : List ℕ) → Decides (list_any (bytes_eq text) (candidate_paths path)) (IsCandidatePath path text) }
    ensures domains_differ { (host : List ℕ) → differ bytes_eq (candidate_domains host) ≡ true }
    ensures paths_differ { (path : List ℕ) → differ bytes_eq (candidate_paths path) ≡ true }
    ensures most_domains { (host : List ℕ) → length (candidate_domains host) ≡ 1 + dots host }
    ensures most_paths { (path : List ℕ) → length (candidate_paths path) ≤ 1 + 2 * slashes path }
    ensures given { (url : Parts) (now : Moment) (row : Row) → is_given url now row ≡ true
        → (list_any (bytes_eq (domain_text row.domain)) (url_candidate_domains url) ≡ true)
        × (list_any (bytes_eq row.path.text) (candidate_paths url.path) ≡ true) }
{
    cookie_parts::laws::path_match_is_tested();
    cookie_laws::given_is_related();
}

/// The rows at the positions of the given rows are the given rows of all groups in their order, one
/// row for each position. As many candidate domains have a group as are the domain of a row; as
/// many pairs of a candidate domain and a candidate path have a group as are the domain and path of
/// a row.
pub fn rows_at_positions()
    ensures rows { (url : Parts) (now : Moment) (groups : DomainGroups)
        → flat_map (rows_at groups) (given_positions url now groups) ≡ given url now (flat groups) }
    ensures count { (url : Parts) (now : Moment) (groups : DomainGroups)
        → length (given_positions url now groups) ≡ length (given url now (flat groups)) }
    ensures found { (url : Parts) (groups : DomainGroups) → AreGroups groups
        → how_many_found groups (url_candidate_domains url) ≡ domains_found url (flat groups) }
    ensures pairs_found { (url : Parts) (groups : DomainGroups) → AreGroups groups
        → how_many_pairs_found groups (candidate_paths url.path) (url_candidate_domains url) ≡ paths_found url (flat groups) }
{}

/// Groups stored in any order: the domains, the paths of each and the rows of each path, each with
/// its place. Rows at the positions found, sorted by place, are the given rows in the order of
/// places; in any order they are the same rows.
pub fn rows_by_place()
    ensures groups { (placed : PlacedGroups Row) → AreGroups (groups_in_order placed) → AreGroups (groups_by_position placed) }
    ensures order { (placed : PlacedGroups Row) → IsTotalOrder (place_order placed) }
    ensures sorted { (placed : PlacedGroups Row) (url : Parts) (now : Moment) (positions : List RowPosition)
        → IsPermutation (given_positions url now (groups_by_position placed)) positions → IsSorted (place_order placed) positions
        → flat_map (rows_at (groups_by_position placed)) positions ≡ given url now (flat (groups_in_order placed)) }
    ensures any_order { (placed : PlacedGroups Row) (url : Parts) (now : Moment) (positions : List RowPosition)
        → IsPermutation (given_positions url now (groups_by_position placed)) positions
        → IsPermutation (given url now (flat (groups_in_order placed))) (flat_map (rows_at (groups_by_position placed)) positions) }
    ensures domains { (placed : PlacedGroups Row) (url : Parts)
        → domains_found url (flat (groups_by_position placed)) ≡ domains_found url (flat (groups_in_order placed)) }
    ensures paths { (placed : PlacedGroups Row) (url : Parts)
        → paths_found url (flat (groups_by_position placed)) ≡ paths_found url (flat (groups_in_order placed)) }
{}
