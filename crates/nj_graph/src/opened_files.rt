//! The files that were opened.

ghost use Rattle.std.specs.Prelude.{◌≡◌, length, option_map, slice_get};
ghost use Rattle.nj_graph.specs.Cited.{OfStatements, files_opened, main_of, opening_model, openings_read};

use crate::graph::Graph;
use crate::origins::Opening;

impl Graph {
    /// The number of opened files: the main file, and one more for each `include` and `subninja`
    /// statement, even if it opens a file again ("Ninja file reference" in the Ninja manual).
    pub fn opening_count(&self) -> usize
        ensures held { result ≡ length self.now.origins.openings }
        ensures stated { OfStatements self.now (λ entries. result ≡ files_opened entries) }
    {
        self.declared.origins.opening_count()
    }

    /// The opened file at the given index, in reading order; the main file is first. `None` past
    /// the last file.
    pub fn opening(&self, index: usize) -> Option<Opening<'_>>
        ensures held { option_map opening_model result ≡ slice_get self.now.origins.openings index }
        ensures stated { OfStatements self.now (λ entries. option_map opening_model result
            ≡ slice_get (openings_read (main_of self.now.origins) entries) index) }
    {
        self.declared.origins.opening(index)
    }
}
