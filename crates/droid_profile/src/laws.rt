//! Laws of a tree's profile. Each stands on an empty function and is proved with it.

ghost use Rattle.std.specs.Prelude.{◌≡◌, [], ◌∷◌, List};
ghost use Rattle.std.specs.List.{flat_map, AllByRecursion};
ghost use Rattle.droid_core_spec.specs.Records.{records};
ghost use Rattle.droid_core_spec.specs.Setting.{Setting};
ghost use Rattle.droid_core_spec.specs.World.{Node};
ghost use Rattle.droid_pronom.specs.Registry.{Contents};
ghost use Rattle.droid_tree.specs.Paths.{top};
ghost use Rattle.droid_tree.specs.declared.pending_folder.PendingFolder.{PendingFolder};
ghost use Rattle.droid_profile.specs.ProfileNodes.{AreNodesOf, Identifies, all_lying, profile_with};
ghost use Rattle.droid_profile.specs.ProfileRecords.{records_of};
ghost use Rattle.droid_profile.specs.Visits.{Follow, InTurn, IsVisit, Visit, numbers_of};
ghost use Rattle.droid_profile.specs.declared.options.Options.{Options};

/// States that a profile whose nodes are those of a tree's entries has exactly the records of these entries: of each
/// folder and of each file, with its path, its hash and its formats.
pub fn a_tree_is_shown_as_its_profile()
    ensures { (registry : Contents) (setting : Setting) (options : Options) (visits : List Visit)
        (left : List PendingFolder) (nodes : List Node)
        → Identifies registry setting → InTurn (top ∷ []) visits left
        → Follow 0 (flat_map numbers_of visits) → AreNodesOf (all_lying visits) nodes
        → records setting (profile_with options nodes) ≡ records_of registry options visits }
{}

/// States that for each tree there are such nodes.
pub fn each_tree_has_a_profile()
    ensures { (visits : List Visit) → AllByRecursion IsVisit visits
        → (nodes : List Node) × AreNodesOf (all_lying visits) nodes }
{}
