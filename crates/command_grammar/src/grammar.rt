//! The grammar of all words, as `clap` reads it.
ghost use Rattle.std.specs.Prelude.{◌≡◌, false, IfOk};
ghost use Rattle.clap.specs.Built.{AddsArg};
ghost use Rattle.clap.specs.Simple.{app_of, new_app, shape_of, with_rule, with_subcommand};
ghost use Rattle.clap.specs.Walk.{rule_of};
ghost use Rattle.clap.specs.declared.builder.command.Command.TheViews.{out-Command as fields_of};
ghost use Rattle.command_grammar.specs.Grammar.{grammar, root, batch_grammar, import_grammar, listing_grammar, serve_grammar, stdio_grammar, unpack_grammar, weave_grammar, with_auto, with_connections, with_images, with_keeping, with_listings, with_makers, with_patterns, with_puts, with_sizes, flag, valued, word};

use clap::{Arg, ArgAction, Command};
use std::alloc::{AllocError, Global};

/// Every command with its words. It fails only for want of memory.
pub fn grammar<'a>(alloc: Global) -> Result<Command<'a>, AllocError>
    ensures { IfOk result (λ made. app_of made ≡ grammar) }
{
    let command = root(alloc);
    let command = with_connections(alloc, command)?;
    let command = with_makers(alloc, command)?;
    let command = with_listings(alloc, command)?;
    with_images(alloc, command)
}

/// A command with those that ask queries or put points.
fn with_connections<'a>(alloc: Global, command: Command<'a>) -> Result<Command<'a>, AllocError>
    requires local { (fields_of command).has_globals ≡ false }
    ensures app { IfOk result (λ made. app_of made ≡ with_connections (app_of command.entry)) }
    ensures local { IfOk result (λ made. (fields_of made).has_globals ≡ false) }
{
    let command = with_command(command, batch_grammar(alloc)?)?;
    let command = with_command(command, stdio_grammar(alloc)?)?;
    with_command(command, serve_grammar(alloc)?)
}

/// A command with those that make a store.
fn with_makers<'a>(alloc: Global, command: Command<'a>) -> Result<Command<'a>, AllocError>
    requires local { (fields_of command).has_globals ≡ false }
    ensures app { IfOk result (λ made. app_of made ≡ with_makers (app_of command.entry)) }
    ensures local { IfOk result (λ made. (fields_of made).has_globals ≡ false) }
{
    let command = with_command(command, import_grammar(alloc)?)?;
    with_command(command, weave_grammar(alloc)?)
}

/// A command with those that read a listing.
fn with_listings<'a>(alloc: Global, command: Command<'a>) -> Result<Command<'a>, AllocError>
    requires local { (fields_of command).has_globals ≡ false }
    ensures app { IfOk result (λ made. app_of made ≡ with_listings (app_of command.entry)) }
    ensures local { IfOk result (λ made. (fields_of made).has_globals ≡ false) }
{
    let command = with_listing(alloc, command, "dump")?;
    let command = with_listing(alloc, command, "fsck")?;
    with_listing(alloc, command, "fix")
}

/// A command with those that make an image or read one.
fn with_images<'a>(alloc: Global, command: Command<'a>) -> Result<Command<'a>, AllocError>
    requires local { (fields_of command).has_globals ≡ false }
    ensures app { IfOk result (λ made. app_of made ≡ with_images (app_of command.entry)) }
    ensures local { IfOk result (λ made. (fields_of made).has_globals ≡ false) }
{
    let command = with_listing(alloc, command, "pack")?;
    with_command(command, unpack_grammar(alloc))
}

/// `unpack`, which has no words.
fn unpack_grammar<'a>(alloc: Global) -> Command<'a>
    ensures shape { shape_of result ≡ unpack_grammar }
    ensures local { (fields_of result).has_globals ≡ false }
{
    begun(alloc, "unpack")
}

/// `import` with its words.
fn import_grammar<'a>(alloc: Global) -> Result<Command<'a>, AllocError>
    ensures shape { IfOk result (λ made. shape_of made ≡ import_grammar) }
    ensures local { IfOk result (λ made. (fields_of made).has_globals ≡ false) }
{
    let command = begun(alloc, "import");
    let command = with_arg(command, flag(alloc, "compact"))?;
    with_arg(command, valued(alloc, "widths"))
}

/// A command on a listing with its words.
fn listing_grammar<'a>(alloc: Global, name: &'a str) -> Result<Command<'a>, AllocError>
    ensures shape { IfOk result (λ made. shape_of made ≡ listing_grammar name.entry.now) }
    ensures local { IfOk result (λ made. (fields_of made).has_globals ≡ false) }
{
    let command = begun(alloc, name);
    with_arg(command, valued(alloc, "widths"))
}

/// A command with one on a listing.
fn with_listing<'a>(
    alloc: Global,
    command: Command<'a>,
    name: &'a str,
) -> Result<Command<'a>, AllocError>
    requires local { (fields_of command).has_globals ≡ false }
    ensures app { IfOk result (λ made. app_of made ≡ with_subcommand (app_of command.entry) (listing_grammar name.entry.now)) }
    ensures local { IfOk result (λ made. (fields_of made).has_globals ≡ false) }
{
    let listing = listing_grammar(alloc, name)?;
    with_command(command, listing)
}

/// `weave` with its words.
fn weave_grammar<'a>(alloc: Global) -> Result<Command<'a>, AllocError>
    ensures shape { IfOk result (λ made. shape_of made ≡ weave_grammar) }
    ensures local { IfOk result (λ made. (fields_of made).has_globals ≡ false) }
{
    let command = begun(alloc, "weave");
    let command = with_arg(command, word(alloc, "seed"))?;
    with_arg(command, word(alloc, "count"))
}

/// `batch` with its words.
fn batch_grammar<'a>(alloc: Global) -> Result<Command<'a>, AllocError>
    ensures shape { IfOk result (λ made. shape_of made ≡ batch_grammar) }
    ensures local { IfOk result (λ made. (fields_of made).has_globals ≡ false) }
{
    let command = begun(alloc, "batch");
    let command = with_arg(command, word(alloc, "start"))?;
    let command = with_arg(command, word(alloc, "end"))?;
    let command = with_arg(command, word(alloc, "query"))?;
    with_arg(command, flag(alloc, "ms"))
}

/// `stdio` with its words.
fn stdio_grammar<'a>(alloc: Global) -> Result<Command<'a>, AllocError>
    ensures shape { IfOk result (λ made. shape_of made ≡ stdio_grammar) }
    ensures local { IfOk result (λ made. (fields_of made).has_globals ≡ false) }
{
    let command = with_puts(alloc, begun(alloc, "stdio"))?;
    let command = with_arg(command, valued(alloc, "widths"))?;
    with_arg(command, valued(alloc, "publish"))
}

/// `serve` with its words.
fn serve_grammar<'a>(alloc: Global) -> Result<Command<'a>, AllocError>
    ensures shape { IfOk result (λ made. shape_of made ≡ serve_grammar) }
    ensures local { IfOk result (λ made. (fields_of made).has_globals ≡ false) }
{
    let command = with_puts(alloc, with_sizes(alloc)?)?;
    with_keeping(alloc, command)
}

/// A command with the options that say whether its store begins from an image, and whether one is saved.
fn with_keeping<'a>(alloc: Global, command: Command<'a>) -> Result<Command<'a>, AllocError>
    requires local { (fields_of command).has_globals ≡ false }
    ensures app { IfOk result (λ made. app_of made ≡ with_keeping (app_of command.entry)) }
    ensures local { IfOk result (λ made. (fields_of made).has_globals ≡ false) }
{
    let command = with_arg(command, flag(alloc, "image"))?;
    with_arg(command, flag(alloc, "save"))
}

/// `serve` with its port and the options that say how large its fleet is.
fn with_sizes<'a>(alloc: Global) -> Result<Command<'a>, AllocError>
    ensures app { IfOk result (λ made. app_of made ≡ with_sizes) }
    ensures local { IfOk result (λ made. (fields_of made).has_globals ≡ false) }
{
    let command = begun(alloc, "serve");
    let command = with_arg(command, word(alloc, "port"))?;
    let command = with_arg(command, valued(alloc, "daemons"))?;
    let command = with_arg(command, valued(alloc, "workers"))?;
    with_arg(command, valued(alloc, "regions"))
}

/// A command with the options that say which names are given ids, and whether points are appended.
fn with_puts<'a>(alloc: Global, command: Command<'a>) -> Result<Command<'a>, AllocError>
    requires local { (fields_of command).has_globals ≡ false }
    ensures app { IfOk result (λ made. app_of made ≡ with_puts (app_of command.entry)) }
    ensures local { IfOk result (λ made. (fields_of made).has_globals ≡ false) }
{
    let command = with_auto(alloc, command)?;
    let command = with_patterns(alloc, command)?;
    with_arg(command, flag(alloc, "appends"))
}

/// A command with the options that say of which kinds names are given ids.
fn with_auto<'a>(alloc: Global, command: Command<'a>) -> Result<Command<'a>, AllocError>
    requires local { (fields_of command).has_globals ≡ false }
    ensures app { IfOk result (λ made. app_of made ≡ with_auto (app_of command.entry)) }
    ensures local { IfOk result (λ made. (fields_of made).has_globals ≡ false) }
{
    let command = with_arg(command, flag(alloc, "auto-metric"))?;
    let command = with_arg(command, flag(alloc, "no-auto-tagk"))?;
    with_arg(command, flag(alloc, "no-auto-tagv"))
}

/// A command with the options that say how new names must begin.
fn with_patterns<'a>(alloc: Global, command: Command<'a>) -> Result<Command<'a>, AllocError>
    requires local { (fields_of command).has_globals ≡ false }
    ensures app { IfOk result (λ made. app_of made ≡ with_patterns (app_of command.entry)) }
    ensures local { IfOk result (λ made. (fields_of made).has_globals ≡ false) }
{
    let command = with_arg(command, valued(alloc, "allow-metric"))?;
    let command = with_arg(command, valued(alloc, "allow-tagk"))?;
    with_arg(command, valued(alloc, "allow-tagv"))
}

/// What commands are added to. The program's name isn't among the words.
fn root<'a>(alloc: Global) -> Command<'a>
    ensures app { app_of result ≡ root }
    ensures local { (fields_of result).has_globals ≡ false }
{
    Command::new(alloc, "tsd").no_binary_name(true)
}

/// A command without words.
fn begun<'a>(alloc: Global, name: &'a str) -> Command<'a>
    ensures app { app_of result ≡ new_app name.entry.now }
    ensures local { (fields_of result).has_globals ≡ false }
{
    Command::new(alloc, name)
}

/// A command with one more command below it.
fn with_command<'a>(
    command: Command<'a>,
    subcommand: Command<'a>,
) -> Result<Command<'a>, AllocError>
    requires command { (fields_of command).has_globals ≡ false }
    requires subcommand { (fields_of subcommand).has_globals ≡ false }
    ensures app { IfOk result (λ made. app_of made ≡ with_subcommand (app_of command.entry) (shape_of subcommand.entry)) }
    ensures local { IfOk result (λ made. (fields_of made).has_globals ≡ false) }
{
    command.subcommand(subcommand)
}

/// A command with one more argument.
fn with_arg<'a>(command: Command<'a>, arg: Arg<'a>) -> Result<Command<'a>, AllocError>
    requires command { (fields_of command).has_globals ≡ false }
    requires arg { arg.global ≡ false }
    ensures app { IfOk result (λ made. app_of made ≡ with_rule (app_of command.entry) (rule_of arg.entry)) }
    ensures local { IfOk result (λ made. (fields_of made).has_globals ≡ false) }
{
    command.arg(arg)
}

/// A word that has to be there.
fn word<'a>(alloc: Global, id: &'a str) -> Arg<'a>
    ensures rule { rule_of result ≡ word id.entry.now }
    ensures local { result.global ≡ false }
{
    Arg::new(alloc, id).required(true)
}

/// An option without a value.
fn flag<'a>(alloc: Global, id: &'a str) -> Arg<'a>
    ensures rule { rule_of result ≡ flag id.entry.now }
    ensures local { result.global ≡ false }
{
    Arg::new(alloc, id).long(id).action(ArgAction::SetTrue)
}

/// An option with a value.
fn valued<'a>(alloc: Global, id: &'a str) -> Arg<'a>
    ensures rule { rule_of result ≡ valued id.entry.now }
    ensures local { result.global ≡ false }
{
    Arg::new(alloc, id).long(id).action(ArgAction::Set)
}
