// Laws of walks and of the rules' definitions, each the contract of a function that does nothing.
ghost use Rattle.uac_topology_rules.specs.Walk.{NoWayBack};
ghost use Rattle.uac_topology_rules.specs.Cycles.{LongWalksComeRound};
ghost use Rattle.uac_topology_rules.specs.Clusters.{MoreLinksChangeNothing};
ghost use Rattle.uac_topology_rules.specs.LinkCycles.{WalkRulesNameCycles};

/// No walk leads back to a node from which no walk of as many links as there are nodes leads on.
pub fn no_way_back()
    ensures { NoWayBack }
{}

/// A walk of as many links as there are nodes leads on from a node exactly where links come round behind it.
pub fn long_walks_come_round()
    ensures { LongWalksComeRound }
{}

/// Where no walk is as long, the cluster and the clocks behind an entity stay the same along more links.
pub fn more_links_change_nothing()
    ensures { MoreLinksChangeNothing }
{}

/// U6 names the first entity in block order from which signal links come round, U7 likewise for clock links where no
/// signal links come round, and both hold exactly where there is no cycle.
pub fn walk_rules_name_cycles()
    ensures { WalkRulesNameCycles }
{}
