// Each refusal by its number with what a refused call leaves, what meshes cost, and the orders of waiting.
mod adding;
mod by_hand;
mod costing;
mod laying;
mod loading;
mod misfitting;
mod owners;
mod site;
mod telling;
mod unsound;
mod waiting;
