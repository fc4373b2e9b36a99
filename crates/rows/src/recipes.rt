// The texts and images that have names, and how images are made.
use crate::running::{Fails, Given, carry_out};
use anyhow::{Context, Result, bail, ensure};
use row_texts::{
    Entry, Image, Item, call_structures, change_of, content_of, flip_all, lay_file, link_file,
    next_word, number_of, number_word, put_leaf, put_pointers,
};
use std::alloc::Global;

/// An image by its name, in each size of a block in which it is made.
#[derive(Drop)]
pub(crate) struct Recipe<'a> {
    pub name: &'a str,
    pub images: Vec<Image>,
}

#[derive(Drop)]
struct Text<'a> {
    name: &'a str,
    lines: Vec<&'a str>,
}

#[derive(Drop)]
pub(crate) struct Book<'a> {
    texts: Vec<Text<'a>>,
    recipes: Vec<Recipe<'a>>,
}

// A device with this byte everywhere, of `SIZE BLOCKS`.
fn device(alloc: Global, rest: &mut &str, byte: u8) -> Result<Image> {
    let size = number_word(next_word(rest)).context("no size of a block")?;
    let blocks = number_word(next_word(rest)).context("no number of blocks")?;
    let mut image = Image::device(alloc, size.min(65_536) as u32, blocks, byte)?;
    call_structures(alloc, &mut image)?;
    Ok(image)
}

// An image that `mkfs` makes on a device of zeros: `SIZE BLOCKS WORDS`.
fn made(alloc: Global, rest: &mut &str) -> Result<Image> {
    let image = device(alloc, rest, 0)?;
    let words = format!(in alloc; "mkfs {rest}")?;
    let given = Given {
        words: words.as_str(),
        script: Vec::new(alloc),
        fails: Fails::none(alloc),
        outcomes: Vec::new(alloc),
    };
    let left = carry_out(alloc, image.size, image.bytes, &given, &given.fails)?;
    ensure!(left.status == 0, "mkfs ends with status {}", left.status);
    let mut image = Image {
        size: image.size,
        bytes: left.bytes,
        names: Vec::new(alloc),
    };
    call_structures(alloc, &mut image)?;
    Ok(image)
}

/// The image that an item makes anew; none where it makes none.
pub(crate) fn made_anew(alloc: Global, words: &str) -> Result<Option<Image>> {
    let mut rest = words;
    match next_word(&mut rest) {
        "zeros" => Ok(Some(device(alloc, &mut rest, 0)?)),
        "ones" => Ok(Some(device(alloc, &mut rest, 0xff)?)),
        "mkfs" => Ok(Some(made(alloc, &mut rest)?)),
        _ => Ok(None),
    }
}

// So many blocks are left.
fn cut(image: &mut Image, blocks: u64) {
    let length = image.start(blocks);
    image.bytes.truncate(length);
}

// Blocks of zeros behind the others.
fn grow(image: &mut Image, blocks: u64) -> Result<()> {
    let more = image.start(blocks.min(4096));
    for _ in 0..more {
        image.bytes.push(0)?;
    }
    Ok(())
}

fn lay(alloc: Global, image: &mut Image, words: &str) -> Result<()> {
    let mut rest = words;
    let name = next_word(&mut rest);
    let content = content_of(alloc, image, rest)?.context("no content")?;
    lay_file(alloc, image, name, &content)
}

fn link(alloc: Global, image: &mut Image, words: &str) -> Result<()> {
    let mut rest = words;
    let directory = number_of(image, next_word(&mut rest))?;
    let name = next_word(&mut rest);
    let file = number_of(image, rest)?;
    link_file(alloc, image, directory, name, file)
}

// An empty leaf: `BLOCK DEPTH`, or `BLOCK DEPTH NEXT`.
fn leaf(image: &mut Image, words: &str) -> Result<()> {
    let mut rest = words;
    let block = number_of(image, next_word(&mut rest))?;
    let depth = number_of(image, next_word(&mut rest))?;
    let next = if rest.is_empty() {
        0
    } else {
        number_of(image, rest)?
    };
    put_leaf(image, block, depth, next)
}

// Calls a number by a word, `WORD NUMBER`, or in one size of a block alone, `WORD NUMBER at SIZE`.
fn name(alloc: Global, image: &mut Image, words: &str) -> Result<()> {
    let mut rest = words;
    let word = next_word(&mut rest);
    let (number, size) = rest.split_once(" at ").unwrap_or((rest, "size"));
    if number_of(image, size)? == u64::from(image.size) {
        let number = number_of(image, number)?;
        image.call(alloc, word, number)?;
    }
    Ok(())
}

/// Changes an image as an item says. Names mean what they mean on the base. Answers false where the item says something else.
fn change_by(alloc: Global, base: &Image, image: &mut Image, words: &str) -> Result<bool> {
    let mut rest = words;
    match next_word(&mut rest) {
        "file" => lay(alloc, image, rest)?,
        "link" => link(alloc, image, rest)?,
        "leaf" => leaf(image, rest)?,
        "patch" => change_of(alloc, base, image, rest)?.put(image)?,
        "points" => put_pointers(base, image, rest)?,
        "flip" => flip_all(base, image, rest)?,
        "cut" => cut(image, number_of(base, rest)?),
        "grow" => grow(image, number_of(base, rest)?)?,
        "name" => name(alloc, image, rest)?,
        _ => return Ok(false),
    }
    Ok(true)
}

/// The same. Where there is no base, names mean what they mean on the image.
pub(crate) fn change(
    alloc: Global,
    base: Option<&Image>,
    image: &mut Image,
    words: &str,
) -> Result<bool> {
    match base {
        Some(base) => change_by(alloc, base, image, words),
        None => {
            let base = image.copy(alloc)?;
            change_by(alloc, &base, image, words)
        }
    }
}

impl<'a> Book<'a> {
    pub(crate) fn new(alloc: Global) -> Book<'a> {
        Book {
            texts: Vec::new(alloc),
            recipes: Vec::new(alloc),
        }
    }

    /// The lines of the text of this name.
    pub(crate) fn text(&self, name: &str) -> Result<&[&'a str]> {
        for text in &self.texts {
            if text.name == name {
                return Ok(text.lines.as_slice());
            }
        }
        bail!("no text {name}")
    }

    /// The images of this name.
    pub(crate) fn images(&self, name: &str) -> Result<&[Image]> {
        for recipe in &self.recipes {
            if recipe.name == name {
                return Ok(recipe.images.as_slice());
            }
        }
        bail!("no image {name}")
    }

    // Takes an item of an image's recipe.
    fn make(&self, alloc: Global, images: &mut Vec<Image>, item: &Item<'a>) -> Result<()> {
        if let Some(name) = item.words.strip_prefix("from ") {
            for image in self.images(name)? {
                images.push(image.copy(alloc)?)?;
            }
            return Ok(());
        }
        if let Some(image) = made_anew(alloc, item.words)? {
            images.push(image)?;
            return Ok(());
        }
        for image in images.iter_mut() {
            ensure!(
                change(alloc, None, image, item.words)?,
                "no item of an image: {}",
                item.words
            );
        }
        Ok(())
    }

    fn take_image(&mut self, alloc: Global, entry: &Entry<'a>) -> Result<()> {
        ensure!(
            self.images(entry.name).is_err(),
            "image {}: another one has that name",
            entry.name
        );
        let mut images = Vec::new(alloc);
        for item in &entry.items {
            self.make(alloc, &mut images, item)
                .context(format_args!("image {}: {}", entry.name, item.words))?;
        }
        self.recipes.push(Recipe {
            name: entry.name,
            images,
        })?;
        Ok(())
    }

    fn take_text(&mut self, alloc: Global, entry: &Entry<'a>) -> Result<()> {
        ensure!(
            self.text(entry.name).is_err(),
            "text {}: another one has that name",
            entry.name
        );
        let mut lines = Vec::new(alloc);
        for item in &entry.items {
            lines.push(item.words)?;
        }
        self.texts.push(Text {
            name: entry.name,
            lines,
        })?;
        Ok(())
    }

    /// Takes a text or an image.
    pub(crate) fn take(&mut self, alloc: Global, entry: Entry<'a>) -> Result<()> {
        match entry.kind {
            "text" => self.take_text(alloc, &entry),
            "image" => self.take_image(alloc, &entry),
            kind => bail!("no entry: {kind}"),
        }
    }
}
