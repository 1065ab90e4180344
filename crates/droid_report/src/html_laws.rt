//! Laws of pages. Each law is the contract of a function that does nothing.

ghost use Rattle.std.specs.Prelude.{◌≡◌, ◌++◌, ℕ, List, []};
ghost use Rattle.droid_report.specs.Pages.{page_around, page_text};
ghost use Rattle.droid_report.specs.Readers.{Data, read, tokens_of};
ghost use Rattle.droid_report.specs.TableTrees.{body_text, body_tree};
ghost use Rattle.droid_report.specs.Trees.{Tree, text_of};
ghost use Rattle.droid_report.specs.declared.html.tables.Table.{Table};

/// States that no text can become markup: whatever the texts in a tree are, a browser reads from the tree's text
/// exactly its start tags with their attributes, its end tags and the characters of its texts, in this order, and
/// nothing else.
pub fn no_text_becomes_markup()
    ensures { (tree : Tree) → read Data (text_of tree []) ≡ tokens_of tree }
{}

/// States that a page is a tree: if its body's text is that of a tree, then its text is that of the whole page, which
/// has the tree in its body.
pub fn page_is_a_tree()
    ensures { (title : List ℕ) (body : Tree) → page_around title (text_of body []) ≡ page_text title body }
{}

/// States that a tree's text, with something behind it, is the text of the tree and then that.
pub fn text_goes_on()
    ensures { (tree : Tree) (rest : List ℕ) → text_of tree rest ≡ text_of tree [] ++ rest }
{}

/// States that a page of tables is a tree: its body's text is that of the tree with these tables.
pub fn tables_are_a_tree()
    ensures { (title about : List ℕ) (tables : List Table)
        → body_text title about tables ≡ text_of (body_tree title about tables) [] }
{}
