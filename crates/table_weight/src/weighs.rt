// How much lists of things weigh, as far as a number goes.
ghost use Rattle.std.specs.Prelude.{◌≡◌, ◌-◌, ◌^◌, ℕ, min, sum_by};
ghost use Rattle.machine.specs.Weight.{app_weight, data_weight, file_weight, group_weight};
ghost use Rattle.table_weight.specs.Releases.{release_weight};
ghost use Rattle.table_weight.specs.Weight.{block_cost, content_weight, local_weight, view_weight};

use crate::counts::{
    count_application, count_deployment, count_key, count_some_target, count_some_text,
    count_target, count_text, weigh_blocks, weigh_digests,
};
use machine::{
    APP_WEIGHT, AppState, CONTENT_WEIGHT, FILE_WEIGHT, GROUP_WEIGHT, LOCAL_WEIGHT, VIEW_WEIGHT,
};
use manifests::{Application, Deployment, FileEntry};
use small_types::{Name, Target, Text};
use store_state::{Content, LocalFile, View};

// What weighs something in a list.
pub(crate) trait Weighs {
    // What the list holds.
    type Value;

    // How much it weighs.
    ghost weight: { Self.Value → ℕ };

    fn weigh(value: &Self::Value) -> u64
        ensures { result ≡ min (weight value.now) (2 ^ 64 - 1) };
}

// How much all of them weigh.
pub(crate) fn sum_weights<T: Weighs>(items: &[T::Value]) -> u64
    ensures { result ≡ min (sum_by T.weight items.now) (2 ^ 64 - 1) }
{
    let mut total: u64 = 0;
    for item in items {
        total = total.saturating_add(T::weigh(item));
    }
    total
}

pub(crate) struct Apps;

#[tactic(auto, unfolding(machine::specs::Weight::app_weight))]
impl Weighs for Apps {
    type Value = AppState;

    ghost weight = { app_weight };

    fn weigh(app: &AppState) -> u64 {
        APP_WEIGHT
            .saturating_add(count_key(&app.key))
            .saturating_add(count_some_target(&app.provider))
    }
}

pub(crate) struct Groups;

impl Weighs for Groups {
    type Value = Text;

    ghost weight = { group_weight };

    fn weigh(group: &Text) -> u64 {
        GROUP_WEIGHT.saturating_add(count_text(group))
    }
}

struct Files;

#[tactic(auto, unfolding(machine::specs::Weight::file_weight))]
impl Weighs for Files {
    type Value = FileEntry;

    ghost weight = { file_weight };

    fn weigh(entry: &FileEntry) -> u64 {
        FILE_WEIGHT
            .saturating_add(entry.name.as_bytes().len() as u64)
            .saturating_add(count_some_text(&entry.group))
            .saturating_add(weigh_digests(&entry.list))
    }
}

// What a data file of that name with so many bytes weighs.
#[tactic(auto, unfolding(machine::specs::Weight::data_weight))]
pub(crate) fn weigh_data(name: &Name, length: u64) -> u64
    ensures { result
        ≡ min (data_weight (record { name = name.now; length = length })) (2 ^ 64 - 1) }
{
    LOCAL_WEIGHT
        .saturating_add(name.as_bytes().len() as u64)
        .saturating_add(weigh_blocks(length))
}

pub(crate) struct Locals;

#[tactic(auto, unfolding(machine::specs::Weight::data_weight, crate::specs::Weight::local_weight))]
impl Weighs for Locals {
    type Value = LocalFile;

    ghost weight = { local_weight block_cost };

    fn weigh(file: &LocalFile) -> u64 {
        weigh_data(&file.name, file.length)
    }
}

pub(crate) struct Contents;

#[tactic(auto, unfolding(crate::specs::Weight::content_weight))]
impl Weighs for Contents {
    type Value = Content;

    ghost weight = { content_weight block_cost };

    fn weigh(content: &Content) -> u64 {
        CONTENT_WEIGHT
            .saturating_add(weigh_digests(&content.list))
            .saturating_add(weigh_blocks(content.size))
    }
}

// What a view weighs by its manifests and the address of the second one alone.
pub(crate) fn weigh_release(d: &Deployment, a: &Application, base: &Target) -> u64
    ensures { result ≡ min (release_weight d.now a.now base.now) (2 ^ 64 - 1) }
{
    VIEW_WEIGHT
        .saturating_add(count_deployment(d))
        .saturating_add(count_application(a))
        .saturating_add(count_target(base))
        .saturating_add(weigh_digests(&d.app_list))
        .saturating_add(sum_weights::<Files>(a.files.as_slice()))
}

pub(crate) struct Views;

#[tactic(auto, unfolding(crate::specs::Weight::view_weight))]
impl Weighs for Views {
    type Value = View;

    ghost weight = { view_weight block_cost };

    fn weigh(view: &View) -> u64 {
        weigh_release(&view.deployment, &view.application, &view.base)
            .saturating_add(sum_weights::<Groups>(view.groups.as_slice()))
            .saturating_add(sum_weights::<Locals>(view.locals.as_slice()))
    }
}
