//! Laws of scripts and logs. The functions do nothing: what they ensure is the law.

ghost use Rattle.meson_json.specs.Rows.{ArgumentEntries, CodeEntries, Faults, FollowEntries, FollowMembers, FollowedNames, InfoEntries, KnownMembers, Logs, RefusingChangesNothing, RemovalEntries, SortedEntries, TargetEntries, ValueEntries};

/// Which commands some texts are, and why some are not valid.
pub fn script_rows()
    ensures targets { TargetEntries }
    ensures arguments { ArgumentEntries }
    ensures values { ValueEntries }
    ensures sorted { SortedEntries }
    ensures infos { InfoEntries }
    ensures follow { FollowEntries }
    ensures follow_known { FollowMembers }
    ensures follow_names { FollowedNames }
    ensures code { CodeEntries }
    ensures removals { RemovalEntries }
    ensures faults { Faults }
    ensures known { KnownMembers }
{}

/// A script that is valid where unknown members are refused has the same commands where they are ignored.
pub fn refusing_changes_nothing()
    ensures { RefusingChangesNothing }
{}

/// The logs of some histories, and which texts are logs.
pub fn log_rows()
    ensures { Logs }
{}
