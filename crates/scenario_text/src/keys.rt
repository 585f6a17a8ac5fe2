//! The keys that a table of the document may have.
ghost use Rattle.std.specs.{Prelude.{◌≡◌, not, true, map, option_map, string_bytes, string_cmp}, List.{find}, List.Sorted.{IsStrictlySortedBy}};
ghost use Rattle.std.specs.Map.{keys_of};
ghost use Rattle.toml.specs.View.{table_view};
ghost use Rattle.command_text.specs.Reading.{MapsTo};
ghost use Rattle.scenario_text.specs.Keys.{far_keys, is_among, is_ends_key, is_groups_key, is_known_key, only_known, table_keys, unknown_key};

use crate::document_version::DocumentVersion;
use command_text::{RowPlace, ScenarioFault, is_same};
use net_base::Table as TableKind;
use toml::Table;

// The keys of a row of a table in both versions: those of a wire as a whole, and those of what an end of one offers.
fn keys_of(table: TableKind) -> &'static [&'static str]
    ensures { map (λ k. k.now) result.now ≡ table_keys table }
{
    match table {
        TableKind::Top => &["version", "events", "edge", "service", "circuit", "wire"],
        TableKind::Events => &[],
        TableKind::Edge => &["name", "address", "first_label", "keepalive", "max_pdu"],
        TableKind::Service => &["name", "mtu", "age"],
        TableKind::Group => &["name", "number"],
        TableKind::Circuit => &["name", "edge", "service", "tag"],
        TableKind::Wire => &["name", "service", "class", "path", "pw_id", "priority"],
        TableKind::Near | TableKind::Far => &[
            "mode",
            "control_word",
            "mtu",
            "vlan",
            "vccv",
            "status",
            "group",
            "description",
        ],
    }
}

// The keys of what the far end alone offers.
fn far_keys() -> &'static [&'static str]
    ensures { map (λ k. k.now) result.now ≡ far_keys }
{
    &[
        "far_mode",
        "far_control_word",
        "far_mtu",
        "far_vlan",
        "far_vccv",
        "far_status",
        "far_group",
        "far_description",
    ]
}

// Whether this is one of these keys.
fn is_among(keys: &[&str], key: &str) -> bool
    ensures { result ≡ is_among (map (λ k. k.now) keys.now) key.now }
{
    for other in keys {
        if is_same(key, other) {
            return true;
        }
    }
    false
}

// Whether this is the key of the groups, which version 2 alone has.
fn is_groups(version: DocumentVersion, key: &str) -> bool
    ensures { result ≡ is_groups_key version key.now }
{
    match version {
        DocumentVersion::One => false,
        DocumentVersion::Two => is_same(key, "group"),
    }
}

// Whether this is a key of what the ends of a wire offer.
fn is_ends(version: DocumentVersion, key: &str) -> bool
    ensures { result ≡ is_ends_key version key.now }
{
    match version {
        DocumentVersion::One => {
            is_among(keys_of(TableKind::Near), key) || is_among(far_keys(), key)
        }
        DocumentVersion::Two => is_same(key, "near") || is_same(key, "far"),
    }
}

// Whether a row of the table may have the key.
fn is_known(version: DocumentVersion, table: TableKind, key: &str) -> bool
    ensures { result ≡ is_known_key version table key.now }
{
    match table {
        TableKind::Top => is_among(keys_of(table), key) || is_groups(version, key),
        TableKind::Wire => is_among(keys_of(table), key) || is_ends(version, key),
        TableKind::Events
        | TableKind::Edge
        | TableKind::Service
        | TableKind::Group
        | TableKind::Circuit
        | TableKind::Near
        | TableKind::Far => is_among(keys_of(table), key),
    }
}

// The first key that rows of the table lack, by the map's own keys, which ascend.
fn unknown_among(version: DocumentVersion, table: TableKind, members: &Table) -> Option<&String>
    ensures ascend { IsStrictlySortedBy string_cmp (keys_of members.now.entries) }
    ensures first { option_map (λ k. string_bytes k.now) result ≡ option_map string_bytes (find (λ k. not (is_known_key version table (string_bytes k))) (keys_of members.now.entries)) }
{
    members
        .keys()
        .find(|key| !is_known(version, table, key.as_str()))
}

// The least key that rows of the table lack.
fn unknown(version: DocumentVersion, table: TableKind, members: &Table) -> Option<&String>
    ensures { option_map (λ k. string_bytes k.now) result ≡ unknown_key version table (table_view members.now) }
{
    unknown_among(version, table, members)
}

/// Refuses the least key that rows of the table lack.
pub fn only_known_keys(
    version: DocumentVersion,
    table: TableKind,
    row: RowPlace,
    members: &Table,
) -> Result<(), ScenarioFault>
    ensures { MapsTo (λ _. true) result (only_known version table row (table_view members.now)) }
{
    match unknown(version, table, members) {
        Some(key) => Err(row.unknown_key(key.as_str())),
        None => Ok(()),
    }
}
