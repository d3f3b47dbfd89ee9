//! The keyword arguments that commands change.

ghost use Rattle.std.specs.Prelude.{◌≡◌};
ghost use Rattle.meson_calls.specs.Keys.{identifier_list_keys, is_key, switch_keys, text_keys, text_list_keys};
ghost use Rattle.meson_calls.specs.Roles.{one_of};

use crate::call::Role;

/// Whether a keyword argument is one text.
pub fn is_text_key(role: Role, key: &[u8]) -> bool
    ensures { result ≡ one_of (text_keys role) key.now }
{
    match role {
        Role::Project => b"version".as_slice() == key
            || b"meson_version".as_slice() == key
            || b"subproject_dir".as_slice() == key,
        Role::Dependency => b"language".as_slice() == key
            || b"method".as_slice() == key
            || b"not_found_message".as_slice() == key,
        Role::Target => b"build_rpath".as_slice() == key
            || b"install_dir".as_slice() == key
            || b"install_rpath".as_slice() == key,
    }
}

/// Whether it is `true` or `false`.
pub fn is_switch_key(role: Role, key: &[u8]) -> bool
    ensures { result ≡ one_of (switch_keys role) key.now }
{
    match role {
        Role::Project => false,
        Role::Dependency => b"native".as_slice() == key
            || b"required".as_slice() == key
            || b"static".as_slice() == key,
        Role::Target => {
            b"build_by_default".as_slice() == key
                || b"export_dynamic".as_slice() == key
                || b"gui_app".as_slice() == key
                || b"implib".as_slice() == key
                || b"install".as_slice() == key
                || b"pie".as_slice() == key
        }
    }
}

/// Whether it is a list of texts.
pub fn is_text_list_key(role: Role, key: &[u8]) -> bool
    ensures { result ≡ one_of (text_list_keys role) key.now }
{
    match role {
        Role::Project => b"license".as_slice() == key || b"default_options".as_slice() == key,
        Role::Dependency => b"version".as_slice() == key || b"modules".as_slice() == key,
        Role::Target => false,
    }
}

/// Whether it is a list of variables.
pub fn is_identifier_list_key(role: Role, key: &[u8]) -> bool
    ensures { result ≡ one_of (identifier_list_keys role) key.now }
{
    match role {
        Role::Project => false,
        Role::Dependency => false,
        Role::Target => b"dependencies".as_slice() == key || b"link_with".as_slice() == key,
    }
}

/// Whether commands change a keyword argument.
pub fn is_key(role: Role, key: &[u8]) -> bool
    ensures { result ≡ is_key role key.now }
{
    is_text_key(role, key)
        || is_switch_key(role, key)
        || is_text_list_key(role, key)
        || is_identifier_list_key(role, key)
}
