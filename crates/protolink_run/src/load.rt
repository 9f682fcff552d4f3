//! Reading files, and all that they import.

ghost use Rattle.std.specs.Prelude.{◌≡◌, ◌≢◌, [], true, false, All, IfOk, IfSome, OnOk, string_bytes};
ghost use Rattle.protox_parse.specs.Files.{IsTranslation};
ghost use Rattle.protolink_run.specs.Outcomes.{IsReadFile};

use crate::faults::tell_refusal;
use crate::host::{Host, is_want};
use crate::options::some_has_options;
use crate::paths::{Place, is_name};
use crate::search::path_of;
use crate::told::{Grade, Told, cause, say};
use protolink_words::Format;
use protox_descriptor::descriptor::FileDescriptorProto;
use protox_descriptor::values::Text;
use protox_parse::{ParseFailure, parse};
use std::alloc::{AllocError, Global};
use std::collections::BTreeSet;
use std::io::{self, ErrorKind, Write};

// The file that declares what options there are.
const SCHEMA: &str = "google/protobuf/descriptor.proto";

const NO_NAME: &str =
    "Backslashes, consecutive slashes, \".\", or \"..\" are not allowed in the virtual path";

/// The source of a file that was read.
#[derive(Drop)]
pub(crate) struct SourceFile {
    /// Where it lies.
    pub(crate) path: String,
    /// What it holds.
    pub(crate) text: String,
}

impl SourceFile {
    /// What things are told of, given the file's descriptor.
    ///
    /// # Errors
    /// `AllocError` where memory runs out.
    pub(crate) fn told<'a>(
        &'a self,
        alloc: Global,
        format: Format,
        file: &'a FileDescriptorProto,
    ) -> Result<Told<'a>, AllocError> {
        let (name, path) = (name_of(file), self.path.as_str());
        Told::new(alloc, format, name, path, self.text.as_str())
    }
}

/// The name of a file; the empty text if it has none.
pub(crate) fn name_of(file: &FileDescriptorProto) -> &str {
    match &file.name {
        Some(name) => name.as_str(),
        None => "",
    }
}

/// Where sources lie. Their texts are let go.
///
/// # Errors
/// `AllocError` where memory runs out.
pub(crate) fn paths_of(alloc: Global, sources: Vec<SourceFile>) -> Result<Vec<String>, AllocError> {
    let mut paths = Vec::new(alloc);
    for source in sources {
        paths.push(source.path)?;
    }
    Ok(paths)
}

/// Files that were read, by number.
#[derive(Drop)]
pub(crate) struct Loaded {
    /// Their descriptors, which have their names.
    pub(crate) files: Vec<FileDescriptorProto>,
    /// The source of each.
    pub(crate) sources: Vec<SourceFile>,
    /// How many of them, at the start, are inputs, if none failed.
    pub(crate) inputs: usize,
    /// Whether a file is missing, can't be read, or is refused.
    pub(crate) failed: bool,
    /// The number of the file that was read only since it declares what options there are.
    pub(crate) schema: Option<usize>,
}

/// How files are read.
#[derive(Drop)]
pub(crate) struct Reading<'a, H> {
    pub(crate) host: &'a H,
    pub(crate) places: &'a [Place],
    pub(crate) format: Format,
}

// Names of files that are to be read, each once.
#[derive(Drop)]
struct Wanted {
    names: Vec<String>,
    known: BTreeSet<String>,
}

impl Wanted {
    fn add(&mut self, alloc: Global, name: &str) -> Result<(), AllocError>
        // The first name is new, and names stay.
        ensures first { self.old.known.keys ≡ [] → OnOk result (self.new.names.items ≢ []) }
        ensures more { self.old.names.items ≢ [] → OnOk result (self.new.names.items ≢ []) }
    {
        if self.known.insert(String::from_str(alloc, name)?)? {
            self.names.push(String::from_str(alloc, name)?)?;
        }
        Ok(())
    }

    fn add_imports(&mut self, alloc: Global, file: &FileDescriptorProto) -> Result<(), AllocError>
        ensures { self.old.names.items ≢ [] → OnOk result (self.new.names.items ≢ []) }
    {
        for name in file.dependency.as_slice() {
            self.add(alloc, name.as_str())?;
        }
        Ok(())
    }
}

// Tells that a file can't be read.
fn tell_unread<E: Write>(
    alloc: Global,
    err: &mut E,
    name: &str,
    path: &str,
    error: &io::Error,
) -> io::Result<()> {
    let text = if error.kind() == ErrorKind::PermissionDenied {
        format!(in alloc; "Read access is denied for file: {path}")?
    } else {
        let why = cause(alloc, error)?;
        format!(in alloc; "cannot be read: {why}")?
    };
    say(alloc, err, name, text.as_str())
}

// Tells where bytes stop to be UTF-8, given those before.
fn tell_no_text<E: Write>(
    alloc: Global,
    err: &mut E,
    format: Format,
    name: &str,
    path: &str,
    front: &[u8],
) -> io::Result<()> {
    let text = str::from_utf8(front).unwrap_or("");
    let told = Told::new(alloc, format, name, path, text)?;
    let span = text.len()..text.len();
    told.tell(alloc, err, Grade::Error, Some(&span), "not UTF-8")
}

// The text of a file. If it has none, that is told.
fn text_of<H: Host, E: Write>(
    alloc: Global,
    err: &mut E,
    reading: &Reading<'_, H>,
    name: &str,
    path: &str,
) -> io::Result<Option<String>>
    ensures { IfOk result (λ text. IfSome text (λ text. H.holds reading.now.host.now path.now (string_bytes text))) }
{
    let bytes = match reading.host.read(path) {
        Ok(bytes) => bytes,
        Err(error) if is_want(&error) => return Err(error),
        Err(error) => {
            tell_unread(alloc, err, name, path, &error)?;
            return Ok(None);
        }
    };
    let bytes = bytes.as_slice();
    match str::from_utf8(bytes) {
        Ok(text) => Ok(Some(String::from_str(alloc, text)?)),
        Err(error) => {
            let front = bytes.get(..error.valid_up_to()).unwrap_or(bytes);
            tell_no_text(alloc, err, reading.format, name, path, front)?;
            Ok(None)
        }
    }
}

// The descriptor of a file. If it is refused, that is told.
fn parsed<E: Write>(
    alloc: Global,
    err: &mut E,
    format: Format,
    name: &str,
    path: &str,
    text: &str,
) -> io::Result<Option<FileDescriptorProto>>
    ensures { IfOk result (λ file. IfSome file (IsTranslation name.now text.now)) }
{
    match parse(alloc, name, text) {
        Ok(file) => Ok(Some(file)),
        Err(ParseFailure::Refused(error)) => {
            tell_refusal(alloc, err, format, name, path, &error)?;
            Ok(None)
        }
        Err(ParseFailure::OutOfMemory) => Err(AllocError.into()),
    }
}

// Where the file of this name lies. If it lies nowhere, that is told.
fn found<H: Host, E: Write>(
    alloc: Global,
    err: &mut E,
    reading: &Reading<'_, H>,
    name: &str,
) -> io::Result<Option<String>> {
    if !is_name(alloc, name)? {
        say(alloc, err, name, NO_NAME)?;
        return Ok(None);
    }
    if let Some(path) = path_of(alloc, reading.host, reading.places, name)? {
        return Ok(Some(path));
    }
    say(alloc, err, name, "File not found.")?;
    Ok(None)
}

// Reads a file, and adds it. Answers whether it was added.
fn load<H: Host, E: Write>(
    alloc: Global,
    err: &mut E,
    reading: &Reading<'_, H>,
    name: &str,
    loaded: &mut Loaded,
) -> io::Result<bool>
    ensures read { All (IsReadFile H.holds reading.now.host.now) loaded.old.files.items
        → OnOk result (All (IsReadFile H.holds reading.now.host.now) loaded.new.files.items) }
    ensures added { IfOk result (λ added. added ≡ true → loaded.new.files.items ≢ []) }
{
    let Some(path) = found(alloc, err, reading, name)? else {
        return Ok(false);
    };
    let Some(text) = text_of(alloc, err, reading, name, path.as_str())? else {
        return Ok(false);
    };
    let (format, source) = (reading.format, text.as_str());
    let Some(file) = parsed(alloc, err, format, name, path.as_str(), source)? else {
        return Ok(false);
    };
    loaded.sources.push(SourceFile { path, text })?;
    loaded.files.push(file)?;
    Ok(true)
}

// Reads a file, and wants all that it imports. If it can't be read, that is told and noted.
fn load_next<H: Host, E: Write>(
    alloc: Global,
    err: &mut E,
    reading: &Reading<'_, H>,
    name: &str,
    wanted: &mut Wanted,
    loaded: &mut Loaded,
) -> io::Result<()>
    ensures read { All (IsReadFile H.holds reading.now.host.now) loaded.old.files.items
        → OnOk result (All (IsReadFile H.holds reading.now.host.now) loaded.new.files.items) }
    ensures some { OnOk result (loaded.new.failed ≡ false → loaded.new.files.items ≢ []) }
    ensures names { wanted.old.names.items ≢ [] → OnOk result (wanted.new.names.items ≢ []) }
{
    if !load(alloc, err, reading, name, loaded)? {
        loaded.failed = true;
        return Ok(());
    }
    if let Some(file) = loaded.files.last() {
        wanted.add_imports(alloc, file)?;
    }
    Ok(())
}

// Whether a name is set, and is this one.
fn is_named(name: Option<&Text>, word: &str) -> bool {
    match name {
        Some(name) => name.as_str() == word,
        None => false,
    }
}

// Whether the file declares what options there are.
fn is_schema(file: &FileDescriptorProto) -> bool {
    is_named(file.package.as_ref(), "google.protobuf")
        && file
            .message_type
            .iter()
            .any(|message| is_named(message.name.as_ref(), "FileOptions"))
}

// Whether some file sets options, and none declares what options there are.
fn lacks_schema(alloc: Global, files: &[FileDescriptorProto]) -> Result<bool, AllocError> {
    Ok(!files.iter().any(is_schema) && some_has_options(alloc, files)?)
}

// Whether the file that declares what options there are is needed, and lies somewhere.
fn wants_schema<H: Host>(
    alloc: Global,
    reading: &Reading<'_, H>,
    files: &[FileDescriptorProto],
) -> io::Result<bool> {
    if !lacks_schema(alloc, files)? {
        return Ok(false);
    }
    Ok(path_of(alloc, reading.host, reading.places, SCHEMA)?.is_some())
}

// Reads that file, and notes its number.
fn load_schema<H: Host, E: Write>(
    alloc: Global,
    err: &mut E,
    reading: &Reading<'_, H>,
    loaded: &mut Loaded,
) -> io::Result<()>
    ensures read { All (IsReadFile H.holds reading.now.host.now) loaded.old.files.items
        → OnOk result (All (IsReadFile H.holds reading.now.host.now) loaded.new.files.items) }
    ensures some { OnOk result (loaded.new.failed ≡ false → loaded.new.files.items ≢ []) }
{
    loaded.schema = Some(loaded.files.len());
    let read = load(alloc, err, reading, SCHEMA, loaded)?;
    loaded.failed = !read;
    Ok(())
}

// Reads the files of these names, and all that they import. What can't be read is told.
fn load_named<H: Host, E: Write>(
    alloc: Global,
    err: &mut E,
    reading: &Reading<'_, H>,
    inputs: &[String],
) -> io::Result<Loaded>
    ensures read { IfOk result (λ loaded. All (IsReadFile H.holds reading.now.host.now) loaded.files.items) }
    // Where there are inputs and none of the files failed, some were read.
    ensures some { inputs.now ≢ [] → IfOk result (λ loaded. loaded.failed ≡ false → loaded.files.items ≢ []) }
{
    let (names, known) = (Vec::new(alloc), BTreeSet::new(alloc));
    let mut wanted = Wanted { names, known };
    for name in inputs {
        wanted.add(alloc, name.as_str())?;
    }
    let mut loaded = Loaded {
        files: Vec::new(alloc),
        sources: Vec::new(alloc),
        inputs: wanted.names.len(),
        failed: false,
        schema: None,
    };
    for next in 0..usize::MAX {
        let Some(name) = wanted.names.get(next) else {
            break;
        };
        let name = String::from_str(alloc, name.as_str())?;
        load_next(alloc, err, reading, name.as_str(), &mut wanted, &mut loaded)?;
    }
    Ok(loaded)
}

/// Reads the files of these names, and all that they import. What can't be read is told.
///
/// If one of them sets options, and none declares what options there are, the file that does is read
/// behind them, if it lies somewhere.
///
/// # Errors
/// An error where memory runs out, or where nothing can be told.
pub(crate) fn load_all<H: Host, E: Write>(
    alloc: Global,
    err: &mut E,
    reading: &Reading<'_, H>,
    inputs: &[String],
) -> io::Result<Loaded>
    ensures read { IfOk result (λ loaded. All (IsReadFile H.holds reading.now.host.now) loaded.files.items) }
    // Where there are inputs and none of the files failed, some were read.
    ensures some { inputs.now ≢ [] → IfOk result (λ loaded. loaded.failed ≡ false → loaded.files.items ≢ []) }
{
    let mut loaded = load_named(alloc, err, reading, inputs)?;
    if loaded.failed || !wants_schema(alloc, reading, loaded.files.as_slice())? {
        return Ok(loaded);
    }
    load_schema(alloc, err, reading, &mut loaded)?;
    Ok(loaded)
}
