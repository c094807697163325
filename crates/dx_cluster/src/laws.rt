//! The laws on the worlds that a scenario reaches.

ghost use Rattle.dx_cluster.specs.Laws.{CommittedRepliesAgree, FoldsGoOn, FoldsStayGood, NextRunGoesOn, NodesAreInOrder, OnlyCommitsCount, OwnSnapshotsStay, PlacingsStopByRisk, ProposalsAreGood, RowsAreAbove, RowsAreOfBlocks, StatesBalance};

/// The committed state of each node is the plain fold of its blocks from its genesis on in every world that a scenario
/// without a resume reaches, and all of them are good: the committed replies never come from what the definition says
/// of bad blocks.
pub fn folds_stay_good()
    ensures { FoldsStayGood }
{}

/// Behind a resume it is the plain fold of the node's blocks from its base on, whatever happens.
pub fn folds_go_on()
    ensures { FoldsGoOn }
{}

/// The committed states after an event come from those before it and the blocks in the slots alone: a good
/// commit applies the block of its slot at its node, and nothing else changes any, where the rows and the snapshots of a
/// node that starts from them are those of its own blocks: then no such start ends the run. So what a node has placed,
/// matched or been fed comes into its committed replies only by a block that is committed to it.
pub fn only_commits_count()
    ensures { OnlyCommitsCount }
{}

/// Two worlds with the same committed states and the same blocks in their slots give the same replies to `block`,
/// `show`, `check`, `commit`, `balance`, `audit`, `digest`, `waits` and `snap`, and the same first number to `filled`,
/// and are alike after them, whatever their nodes have placed, matched or been fed. If their rows are the same too, so do
/// they to `restart` and `resume`; and to `restart` also where the rows of each node are those of its own chain.
pub fn committed_replies_agree()
    ensures { CommittedRepliesAgree }
{}

/// Each committed state of a run is balanced and sound, and the numbers of its audit balance: so in every
/// world that a scenario over a genesis in its ranges reaches, whatever rows were kept before.
pub fn states_balance()
    ensures { StatesBalance }
{}

/// In each of these worlds the blocks and the queue of each node are good, so that neither its committed nor its
/// speculative state comes from what the definitions say of bad ones, and both are sound and balanced.
pub fn nodes_are_in_order()
    ensures { NodesAreInOrder }
{}

/// In each of these worlds a placing that is stopped is stopped by the taker's risk or by a bound: no other code is named.
pub fn placings_stop_by_risk()
    ensures { PlacingsStopByRisk }
{}

/// In each of these worlds what a node proposes is good on its committed state.
pub fn proposals_are_good()
    ensures { ProposalsAreGood }
{}

/// In each of these worlds that is reached without a resume, the kept rows of each node are just those of its blocks: the
/// digest of its genesis at height 0, and above it the bytes of each block. Where all that was kept has bytes, as each
/// block of the program has, they are a chain, over which the next run goes on.
pub fn rows_are_of_blocks()
    ensures { RowsAreOfBlocks }
{}

/// In each of these worlds of as many nodes as a run may have, the kept rows of each node are those of its blocks above
/// its base, behind the digest of its genesis, and it has none above that of its last block.
pub fn rows_are_above()
    ensures { RowsAreAbove }
{}

/// Where the snapshots at entry are those of the nodes' own blocks, and all that was kept has bytes, they stay so, and
/// each node's rows are just those of a chain from its genesis on that leads to its committed state.
pub fn own_snapshots_stay()
    ensures { OwnSnapshotsStay }
{}

/// A run over the rows that another one leaves goes on where that one stopped: each node has its committed state, its
/// stateful orders, and nothing else.
pub fn next_run_goes_on()
    ensures { NextRunGoesOn }
{}
