// What the parts of manifests are read as.
use digest_list::DigestList;
use identity::Identity;
use manifest_parts::{
    ManifestFault, attribute, bad_name, children, digests_of, first_child, has_element,
    identity_in, once, read_root, size, truth, twice_named,
};
use manifest_tree::{Node, read_tree};
use small_types::Limit;
use std::io::{self, ErrorKind};

// The refusal in two words.
fn words(fault: &ManifestFault) -> (&str, &str) {
    match fault {
        ManifestFault::Tree(_) => ("Tree", ""),
        ManifestFault::Missing { what } => ("Missing", what.as_str()),
        ManifestFault::Twice { what } => ("Twice", what.as_str()),
        ManifestFault::BadValue { what } => ("BadValue", what.as_str()),
        ManifestFault::Signed => ("Signed", ""),
        ManifestFault::NoDigest { file } => ("NoDigest", file.as_str()),
        ManifestFault::BadName { file } => ("BadName", file.as_str()),
        ManifestFault::TwiceNamed { file } => ("TwiceNamed", file.as_str()),
        ManifestFault::MinimumAboveVersion { .. } => ("MinimumAboveVersion", ""),
        ManifestFault::OnlineOnly => ("OnlineOnly", ""),
        ManifestFault::TooMany {
            what: Limit::Hashes,
        } => ("TooMany", "hashes"),
        ManifestFault::TooMany { .. } => ("TooMany", ""),
        ManifestFault::Memory => ("Memory", ""),
    }
}

// Prints the refusal as a line.
fn refused(rt: &HostRuntime, fault: &ManifestFault) -> io::Result<()> {
    let (kind, what) = words(fault);
    if what.is_empty() {
        return rt.println(kind);
    }
    println!(rt; "{kind} {what}")
}

// Prints `Ok`, or why it was refused.
fn told<T: Drop>(rt: &HostRuntime, read: Result<T, ManifestFault>) -> io::Result<()> {
    match read {
        Ok(_) => rt.println("Ok"),
        Err(fault) => refused(rt, &fault),
    }
}

fn print_truth(rt: &HostRuntime, value: bool) -> io::Result<()> {
    rt.println(if value { "true" } else { "false" })
}

// The tree that the text spells.
fn tree(rt: &HostRuntime, text: &str) -> io::Result<Node> {
    match read_tree(rt.alloc(), text.as_bytes()) {
        Ok(node) => Ok(node),
        Err(_) => Err(ErrorKind::InvalidInput.into()),
    }
}

fn print_identity(rt: &HostRuntime, identity: &Identity) -> io::Result<()> {
    let key = &identity.key;
    let version = identity.version.print(rt.alloc());
    let Ok(version) = version else {
        return Err(ErrorKind::OutOfMemory.into());
    };
    let name = key.name.as_str();
    let version = version.as_str();
    let token = key.token.as_str();
    print!(rt; "{name} {version} {token}")?;
    let language = key.language.as_str();
    let architecture = key.architecture.as_str();
    let kind = identity.kind.as_str();
    println!(rt; " {language} {architecture} {kind}")
}

fn print_digests(rt: &HostRuntime, list: &DigestList) -> io::Result<()> {
    rt.print("Ok")?;
    for digest in list.as_slice() {
        let Ok(text) = digest.print(rt.alloc()) else {
            return Err(ErrorKind::OutOfMemory.into());
        };
        let text = text.as_str();
        print!(rt; " {text}")?;
    }
    rt.println("")
}

// Prints the attribute of that name, or `none`.
fn print_attribute(rt: &HostRuntime, node: &Node, name: &str) -> io::Result<()> {
    match attribute(node, name) {
        Some(value) => rt.println(value.as_str()),
        None => rt.println("none"),
    }
}

// Prints whether the element has one of that name below it.
fn print_first(rt: &HostRuntime, node: &Node, name: &str) -> io::Result<()> {
    match first_child(node, name) {
        Some(_) => rt.println("one"),
        None => rt.println("none"),
    }
}

// Prints whether its attribute of that name says yes, as it does where there is none.
fn print_truth_of(rt: &HostRuntime, node: &Node, name: &str) -> io::Result<()> {
    match truth(rt.alloc(), name, true, attribute(node, name)) {
        Ok(value) => print_truth(rt, value),
        Err(fault) => refused(rt, &fault),
    }
}

// Prints the identity in the element, or why there is none.
fn print_identity_in(rt: &HostRuntime, node: &Node) -> io::Result<()> {
    match identity_in(rt.alloc(), node) {
        Ok(identity) => print_identity(rt, &identity),
        Err(fault) => refused(rt, &fault),
    }
}

// Prints the digests of the element, which is a file of that name, or why there are none.
fn print_digests_of(rt: &HostRuntime, node: &Node, file: &str) -> io::Result<()> {
    match digests_of(rt.alloc(), file, node) {
        Ok(list) => print_digests(rt, &list),
        Err(fault) => refused(rt, &fault),
    }
}

// Prints whether its size is a number of at most that many bytes.
fn print_size(rt: &HostRuntime, node: &Node, limit: &str) -> io::Result<()> {
    let Ok(limit) = limit.parse::<u64>() else {
        return Err(ErrorKind::InvalidInput.into());
    };
    told(rt, size(rt.alloc(), limit, attribute(node, "size")))
}

// Prints what the row says of the element: `attribute`, `once`, `has` and `first` of a name, `truth` of
// an attribute, `size` up to a limit, `digests` of a file, `identity`, and the number of its
// `children`.
fn print_of(rt: &HostRuntime, row: &str, word: &str, node: &Node) -> io::Result<()> {
    if row == "attribute" {
        return print_attribute(rt, node, word);
    }
    if row == "once" {
        return told(rt, once(rt.alloc(), node, word));
    }
    if row == "has" {
        return print_truth(rt, has_element(node, word));
    }
    if row == "first" {
        return print_first(rt, node, word);
    }
    if row == "truth" {
        return print_truth_of(rt, node, word);
    }
    if row == "size" {
        return print_size(rt, node, word);
    }
    if row == "digests" {
        return print_digests_of(rt, node, word);
    }
    if row == "identity" {
        return print_identity_in(rt, node);
    }
    if row == "children" {
        let count = children(node).len();
        return println!(rt; "{count}");
    }
    Err(ErrorKind::InvalidInput.into())
}

/// Prints what a row says of a part: of the element that the text spells, by a word; whether the text is
/// that of a manifest (`root`); or the refusals of a file name (`bad-name`, `twice-named`).
pub fn part(rt: &HostRuntime, row: &str, word: &str, text: &str) -> io::Result<()> {
    if row == "root" {
        return told(rt, read_root(rt.alloc(), text.as_bytes()));
    }
    if row == "bad-name" {
        return told::<()>(rt, bad_name(rt.alloc(), word));
    }
    if row == "twice-named" {
        return told::<()>(rt, twice_named(rt.alloc(), word));
    }
    let node = tree(rt, text)?;
    let printed = print_of(rt, row, word, &node);
    drop(node);
    printed
}
