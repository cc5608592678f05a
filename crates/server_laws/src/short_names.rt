ghost use Rattle.std.specs.Prelude.{◌≡◌, ◌&&◌, nat_le, length};
ghost use Rattle.std.specs.Str.{bytes_eq};
ghost use Rattle.server_laws.specs.Small.{are_short, max_name};
ghost use Rattle.step_model.specs.CurrentPackage.{user_package};
ghost use Rattle.swank_rpc.specs.Info.{prompt};

use lisp_data::Text;
use lisp_image::Image;
use lisp_packages::Packages;

/// How many octets a package's name has at most.
const MAX_NAME: usize = 1 << 20;

/// So many packages are too many to count.
const TOO_MANY: u64 = 1 << 63;

/// Whether a package's name is short, and what a prompt shows for the package of that name.
fn is_short(packages: &Packages, name: &Text) -> bool
    ensures { result ≡ (nat_le (length name.now) max_name && nat_le (length (prompt packages.now name.now)) max_name) }
{
    let prompt = packages.prompt(name).unwrap_or(name);
    name.len() <= MAX_NAME && prompt.len() <= MAX_NAME
}

fn is_user(name: &Text) -> bool
    ensures { result ≡ bytes_eq name.now user_package }
{
    name.as_str() == "COMMON-LISP-USER"
}

/// Whether packages have short names.
fn are_short(packages: &Packages) -> bool
    ensures { result ≡ are_short packages.now }
{
    let mut has_user = false;
    for n in 0..TOO_MANY {
        let Some(name) = packages.package_at(n) else {
            return has_user;
        };
        if !is_short(packages, name) {
            return false;
        }
        has_user |= is_user(name);
    }
    false
}

/// Whether the packages of an image have short names. Over such an image each message that a session writes fits a packet.
pub fn has_short_names(image: &Image) -> bool
    ensures { result ≡ are_short image.now.packages }
{
    are_short(image.names())
}
