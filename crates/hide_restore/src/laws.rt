//! What restoring undoes, and what writing and reading keep.
ghost use Rattle.hide_restore.specs.Again.{ReadsAgain};
ghost use Rattle.hide_restore.specs.Edits.{RestoringGivesBack, RestoringNodesGivesBack};

/// An edge that isn't hidden is hidden, then come edits that neither name nor delete it, and then
/// it is restored: the state is the one that those edits alone give.
pub fn restoring_gives_back()
    ensures { RestoringGivesBack }
{}

/// The same of a node.
pub fn restoring_nodes_gives_back()
    ensures { RestoringNodesGivesBack }
{}

/// The plain graph of the visible graph describes a graph whose plain graph is the same: what is
/// written, read and written again is the same, node by node and edge by edge. The graph that was
/// read has the next numbers, and nothing of it is hidden.
pub fn what_is_read_is_written_again()
    ensures { ReadsAgain }
{}
