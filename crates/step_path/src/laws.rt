//! Laws of paths, their texts and their order. Each is a function that does nothing: its contract is
//! the law.
ghost use Rattle.step_path.specs.Laws.{TextReadsBack, TextTellsPathsApart, TextsBeginAsPaths, TextsCompareAsPaths, OrderIsTotal, PageBeforeDescendants, SubtreeStandsTogether, RelabelKeepsRestAndOrder};

/// A path is read back from its text.
pub fn text_reads_back()
    ensures { TextReadsBack }
{}

/// No two paths have one text.
pub fn text_tells_paths_apart()
    ensures { TextTellsPathsApart }
{}

/// A path begins with another exactly where its text begins with the other's.
pub fn texts_begin_as_paths()
    ensures { TextsBeginAsPaths }
{}

/// Ordering by path text is depth-first order.
pub fn texts_compare_as_paths()
    ensures { TextsCompareAsPaths }
{}

/// The order is total and strict.
pub fn order_is_total()
    ensures { OrderIsTotal }
{}

/// A page comes before its descendants.
pub fn page_before_descendants()
    ensures { PageBeforeDescendants }
{}

/// No page stands between the pages of a subtree that is not one of them.
pub fn subtree_stands_together()
    ensures { SubtreeStandsTogether }
{}

/// A replaced beginning keeps what follows it and the order below it.
pub fn relabel_keeps_rest_and_order()
    ensures { RelabelKeepsRestAndOrder }
{}
