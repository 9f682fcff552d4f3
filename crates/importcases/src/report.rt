//! What is printed for a set of files.

ghost use Rattle.std.specs.Prelude.{◌<◌, length};
ghost use Rattle.protox_imports.specs.Passing.{AreRows};

use protox_descriptor::descriptor::FileDescriptorProto;
use protox_imports::{Imports, Order, Passes, in_order, sees};
use protox_marks::Marks;
use std::alloc::{AllocError, Global};

fn name_at(files: &[FileDescriptorProto], number: usize) -> &str {
    let Some(file) = files.get(number) else {
        return "(no file)";
    };
    match &file.name {
        Some(name) => name.as_str(),
        None => "(no name)",
    }
}

fn names_of<'a>(
    alloc: Global,
    files: &'a [FileDescriptorProto],
    numbers: &[usize],
) -> Result<Vec<&'a str>, AllocError> {
    let mut names = Vec::new(alloc);
    for number in numbers {
        names.push(name_at(files, *number))?;
    }
    Ok(names)
}

// A line, if there are names for it.
fn add_line(text: &mut String, head: &str, word: &str, names: &[&str]) -> Result<(), AllocError> {
    if names.is_empty() {
        return Ok(());
    }
    text.push_str(head)?;
    text.push_str(word)?;
    for name in names {
        text.push_str(" ")?;
        text.push_str(name)?;
    }
    text.push_str("\n")
}

// The line of an order or a cycle.
fn order_line(
    alloc: Global,
    files: &[FileDescriptorProto],
    order: &Order,
) -> Result<String, AllocError> {
    let (word, numbers) = match order {
        Order::Sorted(numbers) => ("order:", numbers.as_slice()),
        Order::Cycle(numbers) => ("cycle:", numbers.as_slice()),
    };
    let names = names_of(alloc, files, numbers)?;
    let mut text = String::new(alloc);
    add_line(&mut text, "", word, names.as_slice())?;
    Ok(text)
}

// The names of the files that the imports of a file name.
fn imported<'a>(
    alloc: Global,
    files: &'a [FileDescriptorProto],
    named: &[Option<usize>],
) -> Result<Vec<&'a str>, AllocError> {
    let mut names = Vec::new(alloc);
    for number in named.iter().flatten() {
        names.push(name_at(files, *number))?;
    }
    Ok(names)
}

// The names that imports of a file have and no file has.
fn missing<'a>(
    alloc: Global,
    imports: &Imports,
    file: &'a FileDescriptorProto,
    number: usize,
) -> Result<Vec<&'a str>, AllocError> {
    let mut names = Vec::new(alloc);
    let Some(row) = imports.files.get(number) else {
        return Ok(names);
    };
    for (index, name) in file.dependency.iter().enumerate() {
        if row.is_missing(index) {
            names.push(name.as_str())?;
        }
    }
    Ok(names)
}

// The names of the files that a file sees.
fn seen<'a>(
    alloc: Global,
    files: &'a [FileDescriptorProto],
    imports: &Imports,
    number: usize,
) -> Result<Vec<&'a str>, AllocError>
    requires { number < length imports.now.files }
{
    let marks = sees(alloc, imports, number)?;
    let mut names = Vec::new(alloc);
    for (other, mark) in marks.iter().enumerate() {
        if *mark {
            names.push(name_at(files, other))?;
        }
    }
    Ok(names)
}

fn add_file(
    alloc: Global,
    text: &mut String,
    files: &[FileDescriptorProto],
    imports: &Imports,
    number: usize,
) -> Result<(), AllocError>
    requires { number < length imports.now.files }
{
    let head = name_at(files, number);
    let named = imported(alloc, files, imports.named(number))?;
    add_line(text, head, " imports:", named.as_slice())?;
    let passed = names_of(alloc, files, imports.public(number))?;
    add_line(text, head, " passes on:", passed.as_slice())?;
    if let Some(file) = files.get(number) {
        let names = missing(alloc, imports, file, number)?;
        add_line(text, head, " misses:", names.as_slice())?;
    }
    let seen = seen(alloc, files, imports, number)?;
    add_line(text, head, " sees:", seen.as_slice())
}

// Whether these are the same marks.
fn same(marks: &Marks, seen: &[bool]) -> bool {
    for (number, mark) in seen.iter().enumerate() {
        if marks.has(number) != *mark {
            return false;
        }
    }
    marks.len() == seen.len()
}

// Whether each file sees by what the files pass on what it sees by a search of its own.
fn see_alike(alloc: Global, imports: &Imports, passes: &Passes) -> Result<bool, AllocError>
    requires { AreRows imports.now.files passes.now }
{
    for number in 0..imports.len() {
        let seen = sees(alloc, imports, number)?;
        if !same(&passes.seen(alloc, imports, number)?, seen.as_slice()) {
            return Ok(false);
        }
    }
    Ok(true)
}

/// What is printed for a set of files.
pub(crate) fn report(alloc: Global, files: &[FileDescriptorProto]) -> Result<String, AllocError> {
    let imports = Imports::new(alloc, files)?;
    if imports.is_empty() {
        return String::from_str(alloc, "no files\n");
    }
    let mut text = format!(in alloc; "files: {}\n", imports.len())?;
    let found = in_order(alloc, &imports)?;
    if let Order::Sorted(numbers) = &found {
        let passes = Passes::of(alloc, &imports, numbers.as_slice())?;
        if !see_alike(alloc, &imports, &passes)? {
            text.push_str("two views\n")?;
        }
    }
    let order = order_line(alloc, files, &found)?;
    text.push_str(order.as_str())?;
    if order != order_line(alloc, files, &Order::of(alloc, files)?)? {
        text.push_str("two answers\n")?;
    }
    for number in 0..imports.len() {
        add_file(alloc, &mut text, files, &imports, number)?;
    }
    Ok(text)
}
