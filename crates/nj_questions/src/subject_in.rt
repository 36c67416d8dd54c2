//! What a subcommand asks, by its options.

ghost use Rattle.std.specs.Prelude.{◌≡◌, Some, IfOk, true, is_some};
ghost use Rattle.nj_questions.specs.Cited.{number_in, subject_in, subject_model, rows_in, affected_in, affected_model, audit_in, audit_model, draw_in, draw_model, keys_in, keys_model, stale_in, stale_model, tests_in, tests_model, times_in, times_model, why_in, why_model};

use crate::fields::{is_on, number_in, text_in, text_or, values_in};
use crate::questions::{
    AffectedOptions, AuditOptions, DrawOptions, KeysOptions, StaleOptions, Subject, TestsOptions,
    TimesOptions, WhyOptions,
};
use clap::ArgMatches;
use std::alloc::{AllocError, Global};

/// Returns what the subcommand with the given name asks.
pub fn subject_in(
    alloc: Global,
    name: &str,
    options: &ArgMatches<'_>,
) -> Result<Subject, AllocError>
    requires { is_some (subject_in name.now (rows_in options.now)) ≡ true }
    ensures { IfOk result (λ subject.
        subject_in name.now (rows_in options.now) ≡ Some (subject_model subject)) }
{
    match name {
        "affected" => Ok(Subject::Affected(affected_in(alloc, options)?)),
        "audit" => Ok(Subject::Audit(audit_in(alloc, options)?)),
        "draw" => Ok(Subject::Draw(draw_in(alloc, options)?)),
        "json" => Ok(Subject::Json),
        "keys" => Ok(Subject::Keys(keys_in(alloc, options)?)),
        "stale" => Ok(Subject::Stale(stale_in(alloc, options)?)),
        "tests" => Ok(Subject::Tests(tests_in(alloc, options)?)),
        "times" => Ok(Subject::Times(times_in(alloc, options)?)),
        "why" => Ok(Subject::Why(why_in(alloc, options)?)),
        _ => unreachable!(),
    }
}

// The options of `affected`.
fn affected_in(alloc: Global, options: &ArgMatches<'_>) -> Result<AffectedOptions, AllocError>
    ensures { IfOk result (λ read. affected_model read ≡ affected_in (rows_in options.now)) }
{
    Ok(AffectedOptions {
        source_dirs: values_in(alloc, options, "source-dir")?,
        zero_ended: is_on(options, "zero-ended"),
        ignored: values_in(alloc, options, "ignore")?,
        rules: values_in(alloc, options, "rule")?,
        prefix: text_or(alloc, options, "prefix", "")?,
        no_phony: is_on(options, "no-phony"),
        ignore_unknown: is_on(options, "ignore-unknown"),
        allow_empty: is_on(options, "allow-empty"),
        since: text_in(alloc, options, "since")?,
        bases: values_in(alloc, options, "base")?,
    })
}

// The options of `audit`.
fn audit_in(alloc: Global, options: &ArgMatches<'_>) -> Result<AuditOptions, AllocError>
    ensures { IfOk result (λ read. audit_model read ≡ audit_in (rows_in options.now)) }
{
    Ok(AuditOptions {
        all: is_on(options, "all"),
        only: values_in(alloc, options, "only")?,
        except: values_in(alloc, options, "except")?,
        json: is_on(options, "json"),
        list: is_on(options, "list"),
    })
}

// The options of `draw`.
fn draw_in(alloc: Global, options: &ArgMatches<'_>) -> Result<DrawOptions, AllocError>
    ensures { IfOk result (λ read. draw_model read ≡ draw_in (rows_in options.now)) }
{
    Ok(DrawOptions {
        targets: values_in(alloc, options, "targets")?,
        affected: is_on(options, "affected"),
        fold: is_on(options, "fold"),
        limit: count_in(options, "limit"),
        inputs: count_in(options, "inputs"),
    })
}

// The value of an option that is a number of items.
fn count_in(options: &ArgMatches<'_>, name: &str) -> Option<usize>
    ensures { result ≡ number_in name.now (rows_in options.now) }
{
    number_in(options, name).map(|number| number as usize)
}

// The options of `keys`.
fn keys_in(alloc: Global, options: &ArgMatches<'_>) -> Result<KeysOptions, AllocError>
    ensures { IfOk result (λ read. keys_model read ≡ keys_in (rows_in options.now)) }
{
    Ok(KeysOptions {
        bases: values_in(alloc, options, "base")?,
        additions: values_in(alloc, options, "with")?,
        files: values_in(alloc, options, "with-file")?,
        take: number_in(options, "take"),
        resume: text_in(alloc, options, "resume")?,
        all: is_on(options, "all"),
        json: is_on(options, "json"),
        targets: values_in(alloc, options, "targets")?,
    })
}

// The options of `stale`.
fn stale_in(alloc: Global, options: &ArgMatches<'_>) -> Result<StaleOptions, AllocError>
    ensures { IfOk result (λ read. stale_model read ≡ stale_in (rows_in options.now)) }
{
    Ok(StaleOptions {
        targets: values_in(alloc, options, "targets")?,
        why: is_on(options, "why"),
        json: is_on(options, "json"),
        no_manifest: is_on(options, "no-manifest"),
    })
}

// The options of `tests`.
fn tests_in(alloc: Global, options: &ArgMatches<'_>) -> Result<TestsOptions, AllocError>
    ensures { IfOk result (λ read. tests_model read ≡ tests_in (rows_in options.now)) }
{
    Ok(TestsOptions {
        change: affected_in(alloc, options)?,
        ctest: text_in(alloc, options, "ctest")?,
        meson: text_in(alloc, options, "meson")?,
        format: text_in(alloc, options, "format")?,
        why: is_on(options, "why"),
        json: is_on(options, "json"),
        unnamed: text_in(alloc, options, "unnamed")?,
    })
}

// The options of `times`.
fn times_in(alloc: Global, options: &ArgMatches<'_>) -> Result<TimesOptions, AllocError>
    ensures { IfOk result (λ read. times_model read ≡ times_in (rows_in options.now)) }
{
    Ok(TimesOptions {
        targets: values_in(alloc, options, "targets")?,
        top: count_in(options, "top"),
        by_rule: is_on(options, "by-rule"),
        dead: is_on(options, "dead"),
        json: is_on(options, "json"),
    })
}

// The options of `why`.
fn why_in(alloc: Global, options: &ArgMatches<'_>) -> Result<WhyOptions, AllocError>
    ensures { IfOk result (λ read. why_model read ≡ why_in (rows_in options.now)) }
{
    Ok(WhyOptions {
        from: text_or(alloc, options, "A", "")?,
        to: text_or(alloc, options, "B", "")?,
        validations: is_on(options, "validations"),
        no_order_only: is_on(options, "no-order-only"),
    })
}
