//! The texts that name positions and permissions in bodies.
use site_types::{Permission, Position};

/// The positions by their texts.
pub const POSITIONS: [(&str, Position); 6] = [
    ("first-child", Position::FirstChild),
    ("last-child", Position::LastChild),
    ("first-sibling", Position::FirstSibling),
    ("left", Position::Left),
    ("right", Position::Right),
    ("last-sibling", Position::LastSibling),
];

/// The permissions by their texts.
pub const PERMISSIONS: [(&str, Permission); 6] = [
    ("add", Permission::Add),
    ("change", Permission::Change),
    ("publish", Permission::Publish),
    ("bulk_delete", Permission::BulkDelete),
    ("lock", Permission::Lock),
    ("unlock", Permission::Unlock),
];
