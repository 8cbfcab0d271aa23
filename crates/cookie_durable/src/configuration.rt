//! Configuration of a durable store.
ghost use Rattle.std.specs.Prelude.{◌≡◌, Some};
ghost use Rattle.cookie_durable.specs.Durable.{IsInStep};

use crate::DurableStore;
use cookie_psl::List;
use sqlite_trees::store::Store;

impl<S: Store> DurableStore<S> {
    /// Sets the public suffix list for later insertions, which the file does not keep. Cookies already
    /// stored are kept.
    pub fn set_suffix_list(&mut self, suffixes: List)
        requires { IsInStep self.old (S.Store.view self.old.file) }
        ensures in_step { IsInStep self.new (S.Store.view self.new.file) }
        ensures set { self.new ≡ record self.old { store = record self.old.store { suffixes = Some suffixes } } }
    {
        self.store.set_suffix_list(suffixes);
    }
}
